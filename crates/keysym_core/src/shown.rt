//! Keysyms and characters as they are printed in a fault.
ghost use Rattle.std.specs.Prelude.{◌++◌, codes, true, Some};
ghost use Rattle.std.specs.Fmt.{digits};
ghost use Rattle.keysym_core.specs.Printed.{at_least_four, shown_keysym, key_list};

use crate::keysym::Keysym;
use arrayvec::ArrayVec;
use std::fmt;

/// A keysym, printed as `0x` and lower case digits.
#[derive(Clone, Copy, Debug)]
pub struct ShownKeysym(pub Keysym);

impl fmt::Display for ShownKeysym {
    ghost output = { λ shown. Some (shown_keysym shown.0) };

    fn fmt<W: fmt::Write>(&self, f: &mut fmt::Formatter<W>) -> fmt::Result {
        let number = self.0.value();
        write!(f, "0x{number:x}")
    }
}

/// A character, printed as `U+` and at least four upper case digits.
#[derive(Clone, Copy, Debug)]
pub struct ShownChar(pub char);

impl fmt::Display for ShownChar {
    ghost output = { λ shown. Some (codes "U+" ++ at_least_four (digits 16 true shown.0)) };

    fn fmt<W: fmt::Write>(&self, f: &mut fmt::Formatter<W>) -> fmt::Result {
        let number = u32::from(self.0);
        write!(f, "U+{number:04X}")
    }
}

/// Keysyms, printed with commas between them.
#[derive(Debug, PartialEq, Eq, Drop)]
pub struct KeyList(pub ArrayVec<Keysym, 32>);

impl fmt::Display for KeyList {
    ghost output = { λ list. Some (key_list list.0.items) };

    fn fmt<W: fmt::Write>(&self, f: &mut fmt::Formatter<W>) -> fmt::Result {
        let Some((first, others)) = self.0.split_first() else {
            return Ok(());
        };
        let number = first.value();
        write!(f, "0x{number:x}")?;
        for key in others {
            let number = key.value();
            write!(f, ",0x{number:x}")?;
        }
        Ok(())
    }
}
