//! Copies into the caller's memory, and out of it.
ghost use Rattle.std.specs.Prelude.{◌≡◌, ◌≤◌, take, length, IsTrue};
ghost use Rattle.std.specs.List.{list_all};
ghost use Rattle.keysym_core.specs.Keysym.{is_keysym};
ghost use Rattle.compose_typing_c.specs.Numbers as words;

use arrayvec::ArrayVec;
use keysym_core::Keysym;

/// Puts the bytes at the front of the target, and returns their number. O(bytes).
pub fn put(bytes: &[u8], target: &mut [u8]) -> u32
    requires few { length bytes.now ≤ 1000 }
    requires room { length bytes.now ≤ length target.old }
    ensures count { result ≡ length bytes.now }
    ensures front { take result target.new ≡ bytes.now }
{
    let (front, _) = target.split_at_mut(bytes.len());
    front.copy_from_slice(bytes);
    bytes.len() as u32
}

/// Puts the numbers of the keysyms at the front of the target, and returns their number.
/// O(keysyms).
pub fn put_keysyms(keysyms: &[Keysym], target: &mut [u32; 31]) -> u32
    requires { length keysyms.now ≤ 31 }
    ensures count { result ≡ length keysyms.now }
    ensures front { take result target.new ≡ keysyms.now }
    ensures keysyms { IsTrue (list_all is_keysym keysyms.now) }
{
    put_numbers(keysyms, target);
    keysyms.len() as u32
}

/// Puts the numbers of the keysyms at the front of the target. O(keysyms).
fn put_numbers(keysyms: &[Keysym], target: &mut [u32])
    requires { length keysyms.now ≤ length target.old }
    ensures front { take (length keysyms.now) target.new ≡ keysyms.now }
    ensures same { length target.new ≡ length target.old }
    ensures keysyms { IsTrue (list_all is_keysym keysyms.now) }
{
    for index in 0..keysyms.len() {
        target[index] = keysyms[index].value();
    }
}

/// Returns the keysyms with these numbers, or none if one of the numbers is not a keysym.
pub fn keysyms_of(numbers: &[u32]) -> ArrayVec<Keysym, 31>
    requires { length numbers.now ≤ 31 }
    ensures { result.items ≡ words.keysyms_of numbers.now }
{
    let mut keysyms = ArrayVec::new();
    for number in numbers {
        let Some(keysym) = Keysym::new(*number) else {
            return ArrayVec::new();
        };
        keysyms.push(keysym);
    }
    keysyms
}
