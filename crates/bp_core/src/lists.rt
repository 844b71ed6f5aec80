// Lists that contracts see as lists, whatever room they have.
ghost use Rattle.std.specs.Prelude.{◌≡◌, ◌==◌, List, [], length, IfOk};
ghost use Rattle.std.specs.Cmp.Lexicographic.{pointwise};

use crate::kept::{Put, Row};
use crate::rectangle::Rect;
use crate::refusals::OutOfMemory;
use crate::stamps::Stamp;
use crate::texts::Text;
use std::alloc::Global;
use std::marker::Model;

/// A list of values, over a `Vec`.
#[derive(Clone, Debug, Drop)]
pub struct ListOf<T> {
    items: Vec<T>,
}

pub type TextList = ListOf<Text>;

pub type RectList = ListOf<Rect>;

pub type StampList = ListOf<Stamp>;

pub type RowList = ListOf<Row>;

pub type PutList = ListOf<Put>;

pub type NumberList = ListOf<u64>;

impl<T> Model for ListOf<T> {
    ghost Value = { List T };

    ghost view = { λ l. l.items.items };
}

impl<T> ListOf<T> {
    /// The list of the same members in the same order. It takes no memory.
    pub fn from_vec(items: Vec<T>) -> ListOf<T>
        ensures { result ≡ items.items }
    {
        ListOf { items }
    }

    /// The members in the same order. It takes no memory.
    pub fn into_vec(self) -> Vec<T>
        ensures { result.items ≡ self }
    {
        self.items
    }

    /// The list without members.
    pub fn new(alloc: Global) -> ListOf<T>
        ensures { result ≡ [] }
    {
        ListOf {
            items: Vec::new(alloc),
        }
    }

    /// How many members there are.
    pub fn len(&self) -> usize
        ensures { result ≡ length self.now }
    {
        self.items.len()
    }

    /// Whether there is no member.
    pub fn is_empty(&self) -> bool
        ensures { result ≡ (length self.now == 0) }
    {
        self.items.is_empty()
    }

    /// The members, lent: for iteration, indexing and slicing.
    pub fn as_slice(&self) -> &[T]
        ensures { result.now ≡ self.now }
    {
        self.items.as_slice()
    }
}

impl<T: PartialEq> PartialEq for ListOf<T> {
    ghost use Rattle.std.specs.Cmp.Lexicographic.{pointwise, lists_per};

    ghost eq = { pointwise T.eq };

    ghost laws = { lists_per T.laws };

    fn eq(&self, other: &ListOf<T>) -> bool {
        self.items == other.items
    }
}

impl<T: Eq> Eq for ListOf<T> {
    ghost use Rattle.std.specs.Cmp.Lexicographic.{lists_equiv};

    ghost laws = { lists_equiv T.Eq.laws };
}
