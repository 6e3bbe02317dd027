ghost use Rattle.std.specs.Prelude.{◌≡◌, List};

use std::marker::Model;

/// A list in a field of a public record or variant: contracts see it as a list.
#[derive(Drop)]
pub struct Items<T> {
    list: Vec<T>,
}

impl<T> Model for Items<T> {
    ghost Value = { List T };

    ghost view = { λ items. items.list.items };
}

impl<T> Items<T> {
    /// The list of these items. It takes no memory.
    pub fn of(list: Vec<T>) -> Items<T>
        ensures { result ≡ list.items }
    {
        Items { list }
    }

    /// The items, in their order. It takes no memory.
    pub fn as_slice(&self) -> &[T]
        ensures { result.now ≡ self.now }
    {
        self.list.as_slice()
    }

    /// The list itself. It takes no memory.
    pub fn into_vec(self) -> Vec<T>
        ensures { result.items ≡ self }
    {
        self.list
    }
}
