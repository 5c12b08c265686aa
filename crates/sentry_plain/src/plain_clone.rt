//! Types whose clones are plainly equal to their originals.
ghost use Rattle.sentry_plain.specs.Lending.{IsExactClone};

use crate::text::Text;
use crate::value::{Value, ValueMap, Values};

/// Values whose clones contracts see as equal to them.
pub trait PlainClone: Clone {
    ghost plain: { IsExactClone Self.is_clone };
}

impl PlainClone for Text {
    ghost plain = { λ old new same. same };
}

impl PlainClone for Value {
    ghost plain = { λ old new same. same };
}

impl PlainClone for Values {
    ghost plain = { λ old new same. same };
}

impl PlainClone for ValueMap {
    ghost plain = { λ old new same. same };
}
