//! The value that occurs most often with a key.
ghost use Rattle.std.specs.Prelude.{◌≡◌, ◌<◌, ◌+◌, ℕ, List, length, take, IfOk, OnOk, Some, None, unwrap_or, bytes_eq, ◌&&◌, if◌then◌else◌, option_copied};
ghost use Rattle.std.specs.Borrow.{Bor};
ghost use Rattle.indexmap.specs.IndexMap.{get_by};
ghost use Rattle.compose_lint.specs.Commonest as words;

use indexmap::IndexMap;
use std::alloc::{AllocError, Global};
use std::marker::Model;

/// A key, and a value that occurs with it.
#[derive(Drop)]
pub(crate) struct Note<'a> {
    pub(crate) key: &'a str,
    pub(crate) value: &'a str,
}

impl<'a> Model for Note<'a> {
    ghost use Rattle.compose_lint.specs.Commonest as words;

    ghost Value = { words.Note };

    ghost view = { λ n. record { key = n.key.now; value = n.value.now } };
}

impl<'a> Note<'a> {
    ghost use Rattle.std.specs.Prelude.{◌≡◌};

    pub(crate) fn key(&self) -> &'a str
        ensures { result.now ≡ self.now.key }
    {
        self.key
    }

    pub(crate) fn value(&self) -> &'a str
        ensures { result.now ≡ self.now.value }
    {
        self.value
    }
}

/// How often each of several values occurs with each key.
type Counts<'a> = IndexMap<(&'a str, &'a str), usize>;

/// For each key, the value that occurs most often with it.
pub(crate) type Leaders<'a> = IndexMap<&'a str, Leader<'a>>;

/// The first of the values that occur most often with a key, how often it does, and whether another
/// value does equally often.
#[derive(Drop)]
pub(crate) struct Leader<'a> {
    value: &'a str,
    count: usize,
    is_tied: bool,
}

impl<'a> Model for Leader<'a> {
    ghost use Rattle.compose_lint.specs.Commonest as words;

    ghost Value = { words.Leading };

    ghost view = { λ l. record { value = l.value.now; count = l.count; is_tied = l.is_tied } };
}

impl<'a> Leader<'a> {
    ghost use Rattle.std.specs.Prelude.{◌≡◌};

    /// Returns the leading value.
    fn value(&self) -> &'a str
        ensures { result.now ≡ self.now.value }
    {
        self.value
    }

    /// Returns how often it occurs.
    fn count(&self) -> usize
        ensures { result ≡ self.now.count }
    {
        self.count
    }
}

/// Returns for each key the value that occurs most often with it. O(bytes).
pub(crate) fn leaders<'a>(alloc: Global, notes: &[Note<'a>]) -> Result<Leaders<'a>, AllocError>
    ensures { IfOk result (λ leaders. (k : Bor (List ℕ)) → words.IsLed (words.times notes.now k.now) k.now notes.now (get_by (λ p. bytes_eq k.now p.now) leaders)) }
{
    let mut leaders = IndexMap::new(alloc);
    let mut others = IndexMap::new(alloc);
    for index in 0..notes.len() {
        count_note(&mut leaders, &mut others, notes, index)?;
    }
    Ok(leaders)
}

/// Counts the note with this index, after those before it. `others` has the counts of the values
/// that don't lead, and nothing for a key with one value.
fn count_note<'a>(
    leaders: &mut Leaders<'a>,
    others: &mut Counts<'a>,
    notes: &[Note<'a>],
    index: usize,
) -> Result<(), AllocError>
    requires within { index < length notes.now }
    requires before { (k : Bor (List ℕ)) → words.IsTallied (take index notes.now) k.now (get_by (λ p. bytes_eq k.now p.now) leaders.old) (λ v. unwrap_or (get_by (λ p. bytes_eq k.now p.0.now && bytes_eq v p.1.now) others.old) 0) }
    ensures { OnOk result ((k : Bor (List ℕ)) → words.IsTallied (take (index + 1) notes.now) k.now (get_by (λ p. bytes_eq k.now p.now) leaders.new) (λ v. unwrap_or (get_by (λ p. bytes_eq k.now p.0.now && bytes_eq v p.1.now) others.new) 0)) }
{
    let note = &notes[index];
    let (key, value) = (note.key(), note.value());
    let Some(leader) = leaders.get(key) else {
        leaders.insert(key, first_leader(value))?;
        return Ok(());
    };
    let count = count_beside(leader, others, key, value) + 1;
    let next = next_leader(leader, value, count);
    keep_others(others, leader, key, value, count)?;
    leaders.insert(key, next)?;
    Ok(())
}

/// Returns the leader if the first value with a key is this one.
fn first_leader<'a>(value: &'a str) -> Leader<'a>
    ensures { result ≡ words.next_leading None value.now 1 }
{
    Leader {
        value,
        count: 1,
        is_tied: false,
    }
}

/// Returns how often the value occurs with the key, if this is its leader.
fn count_beside(leader: &Leader<'_>, others: &Counts<'_>, key: &str, value: &str) -> usize
    ensures { result ≡ words.count_of (Some leader.now) value.now (unwrap_or (get_by (λ p. bytes_eq key.now p.0.now && bytes_eq value.now p.1.now) others.now) 0) }
{
    if value == leader.value {
        return leader.count;
    }
    others.get(&(key, value)).copied().unwrap_or(0)
}

/// Returns the leader after another value, which occurs `count` times with the key.
fn next_leader<'a>(leader: &Leader<'a>, value: &'a str, count: usize) -> Leader<'a>
    ensures { result ≡ words.next_leading (Some leader.now) value.now count }
{
    if leader.count < count {
        return Leader {
            value,
            count,
            is_tied: false,
        };
    }
    let is_tied = leader.is_tied || (value != leader.value && count == leader.count);
    Leader {
        value: leader.value,
        count: leader.count,
        is_tied,
    }
}

/// Keeps the counts of the leading value of the key and of the value, which occurs `count` times,
/// if these are two values.
fn keep_others<'a>(
    others: &mut Counts<'a>,
    leader: &Leader<'a>,
    key: &'a str,
    value: &'a str,
    count: usize,
) -> Result<(), AllocError>
    ensures { OnOk result ((k : Bor (List ℕ)) (v : Bor (List ℕ)) → unwrap_or (get_by (λ p. bytes_eq k.now p.0.now && bytes_eq v.now p.1.now) others.new) 0 ≡ words.other_count leader.now key.now value.now count k.now v.now (unwrap_or (get_by (λ p. bytes_eq k.now p.0.now && bytes_eq v.now p.1.now) others.old) 0)) }
{
    if value != leader.value() {
        put_count(others, key, value, count)?;
        put_count(others, key, leader.value(), leader.count())?;
    }
    Ok(())
}

/// Sets how often the value occurs with the key.
fn put_count<'a>(
    others: &mut Counts<'a>,
    key: &'a str,
    value: &'a str,
    count: usize,
) -> Result<(), AllocError>
    ensures { OnOk result ((k : Bor (List ℕ)) (v : Bor (List ℕ)) → unwrap_or (get_by (λ p. bytes_eq k.now p.0.now && bytes_eq v.now p.1.now) others.new) 0 ≡ (if bytes_eq key.now k.now && bytes_eq value.now v.now then count else unwrap_or (get_by (λ p. bytes_eq k.now p.0.now && bytes_eq v.now p.1.now) others.old) 0)) }
{
    others.insert((key, value), count)?;
    Ok(())
}

/// Returns whether a value other than this one occurs more often with the key than any other, if
/// these are the leaders of some notes. O(bytes of the key and the value).
pub(crate) fn has_other(leaders: &Leaders<'_>, key: &str, value: &str) -> bool
    ensures { (notes : List words.Note)
        → ((k : Bor (List ℕ))
        → words.IsLed (words.times notes k.now) k.now notes
        (get_by (λ p. bytes_eq k.now p.now) leaders.now))
        → result ≡ words.has_other notes key.now value.now }
{
    leads_other(leaders.get(key), value)
}

/// Returns whether the leader is a value other than this one, and no value occurs equally often.
fn leads_other(leader: Option<&Leader<'_>>, value: &str) -> bool
    ensures { result ≡ words.leads_other value.now (option_copied leader.entry) }
{
    match leader {
        Some(leader) => !leader.is_tied && leader.value != value,
        None => false,
    }
}
