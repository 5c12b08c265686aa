//! None, one or a list.
ghost use Rattle.std.specs.Prelude.{◌≡◌, ◌==◌, IfOk, IfErr, length};
ghost use Rattle.std.specs.Option.{option_to_list};

use std::marker::Model;

#[derive(Debug, Drop)]
enum Body<T> {
    Single(Option<T>),
    List(Vec<T>),
}

/// None, one or a list. None and one take no memory. Contracts see the list of the items.
#[derive(Debug)]
pub struct Few<T> {
    body: Body<T>,
}

impl<T: Drop> Drop for Few<T> {
    fn drop(self) {
        let Few { body: _ } = self;
    }
}

impl<T> Model for Few<T> {
    ghost use Rattle.std.specs.Prelude.{List};

    ghost Value = { List T };

    ghost use Rattle.sentry_plain.specs.FewView.{items_of};

    ghost view = { λ a. items_of a.body };
}

impl<T> Few<T> {
    /// None or one. It takes no memory.
    pub fn single(item: Option<T>) -> Few<T>
        ensures { result ≡ option_to_list item }
    {
        Few {
            body: Body::Single(item),
        }
    }

    /// The items of a vector. It takes no memory.
    pub fn from_vec(items: Vec<T>) -> Few<T>
        ensures { result ≡ items.items }
    {
        Few {
            body: Body::List(items),
        }
    }

    /// None or one, or else the vector. It takes no memory.
    pub fn into_single(self) -> Result<Option<T>, Vec<T>>
        ensures single { IfOk result (λ item. self ≡ option_to_list item) }
        ensures list { IfErr result (λ list. self ≡ list.items) }
    {
        let Few { body } = self;
        match body {
            Body::Single(item) => Ok(item),
            Body::List(items) => Err(items),
        }
    }

    /// Returns `true` if there are no items.
    pub fn is_empty(&self) -> bool
        ensures { result ≡ (length self.now == 0) }
    {
        match &self.body {
            Body::Single(item) => item.is_none(),
            Body::List(items) => items.is_empty(),
        }
    }
}
