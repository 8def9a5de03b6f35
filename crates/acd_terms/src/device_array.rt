//! A few devices, held in place.

ghost use Rattle.std.specs.Prelude.{◌≡◌, ◌++◌, ◌<◌, ◌≤◌, [], ◌∷◌, length};

use crate::id::{DeviceId, FILLER};
use std::marker::Model;

/// At most eight devices, in the order in which they were put. They take no other memory.
#[derive(Clone, Copy, Debug)]
pub struct DeviceArray {
    cells: [DeviceId; 8],
    len: usize,
}

impl Model for DeviceArray {
    ghost use Rattle.std.specs.Prelude.{ℕ, List, take, ◌++◌, ◌-◌, length, replicate};
    ghost use Rattle.acd_terms.specs.DeviceArrays.{AreHeld, cells-inverse, len-inverse};

    ghost Value = { List ℕ };

    ghost view = { λ f. take f.len f.cells };

    ghost invariant = { λ f. AreHeld f.cells f.len };

    ghost inverse = { λ ds. record { cells = ds ++ replicate (8 - length ds) 10; len = length ds } };

    ghost inverse_ok = { λ f h i. record {
      cells = cells-inverse f.cells f.len h i;
      len = len-inverse f.cells f.len h i;
    } };
}

impl DeviceArray {
    pub fn none() -> DeviceArray
        ensures { result ≡ [] }
    {
        DeviceArray {
            cells: [FILLER; 8],
            len: 0,
        }
    }

    pub fn one(device: DeviceId) -> DeviceArray
        ensures { result ≡ device ∷ [] }
    {
        let mut few = DeviceArray::none();
        few.push(device);
        few
    }

    pub fn len(&self) -> usize
        ensures value { result ≡ length self.now }
        ensures few { result ≤ 8 }
    {
        self.len
    }

    pub fn as_slice(&self) -> &[DeviceId]
        ensures value { result.now ≡ self.now }
        ensures few { length self.now ≤ 8 }
    {
        &self.cells[..self.len]
    }

    /// Puts one more after the others.
    pub fn push(&mut self, device: DeviceId)
        requires { length self.old < 8 }
        ensures { self.new ≡ self.old ++ device ∷ [] }
    {
        self.cells[self.len] = device;
        self.len += 1;
    }
}
