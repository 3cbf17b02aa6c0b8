//! What is written out by a macro: drops, and the names of variants.

/// Lets go of a value's fields, which are all named.
#[macro_export]
macro_rules! let_go {
    ($value:ident; $($field:ident),*) => {
        let Self { $($field: _),* } = $value;
    };
}

/// The name of the variant that a value is, of an enum with just these.
#[macro_export]
macro_rules! name_of {
    ($value:expr, $type:ident: $($variant:ident)*) => {
        match $value { $($type::$variant => stringify!($variant)),* }
    };
}
