//! Lists of names.

ghost use Rattle.std.specs.Prelude.{◌≡◌, ◌<◌, length, map, slice_get, Some};

use std::marker::Model;

/// Names, numbered from 0.
#[derive(Drop)]
pub struct NameList<'a> {
    names: Vec<&'a [u8]>,
}

impl<'a> Model for NameList<'a> {
    ghost use Rattle.std.specs.Prelude.{List, ℕ, map};

    ghost Value = { List (List ℕ) };

    ghost view = { λ a. map (λ k. k.now) a.names.items };
}

impl<'a> NameList<'a> {
    /// Creates the list of these names.
    pub fn new(names: Vec<&'a [u8]>) -> NameList<'a>
        ensures { result ≡ map (λ k. k.now) names.entry.items }
    {
        NameList { names }
    }

    /// Returns how many names are stored.
    pub fn len(&self) -> usize
        ensures { result ≡ length self.now }
    {
        self.names.len()
    }

    /// Returns the name with this number.
    pub fn name(&self, number: usize) -> &'a [u8]
        requires { number < length self.now }
        ensures { slice_get self.now number ≡ Some result.now }
    {
        self.names[number]
    }
}
