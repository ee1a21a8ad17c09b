//! How a node's base and number are kept in its base field.

ghost use Rattle.std.specs.Prelude.{◌<◌, ◌^◌, ◌↔◌, ◌≡◌, ◌≢◌, IsTrue};
ghost use Rattle.cedar_model.specs.Words.{AtBase, default_layout, layout_byte, LayoutKind};
ghost use Rattle.cedar_model.specs.Words.{Nothing, reading, reduced_layout};

/// What a node's base field says: where its slots begin, its own number, or neither.
#[derive(Clone, Copy, Debug, PartialEq, Eq)]
pub enum Stored {
    AtBase(usize),
    OwnNumber(i32),
    Nothing,
}

/// How a node's base and number are kept in its base field.
pub trait Layout {
    /// Which layout it is.
    ghost kind: { LayoutKind };

    /// Returns whether a node that owns no slot keeps its number in its own base field.
    fn keeps_numbers() -> bool
        ensures { IsTrue result ↔ (kind ≡ reduced_layout) };

    /// Returns what a base field says.
    fn read_base(field: i32) -> Stored
        //= The trait of layouts: how a base field is read and written; by default a field of at least 0 is a base, in the reduced layout s
        //  below 0 is the base -(s + 1), and any other the node's own number. [also read_node, base_field, keeps_numbers, file_byte; by
        //  reading]
        ensures { result ≡ reading kind field };

    /// Returns what the base field of a node says, which is never nothing.
    fn read_node(field: i32) -> Stored
        requires { reading kind field ≢ Nothing }
        ensures { result ≡ reading kind field };

    /// Returns a base as the base field keeps it.
    fn base_field(base: usize) -> i32
        requires { base < 2 ^ 31 }
        ensures { reading kind result ≡ AtBase base };

    /// Returns the byte that names the layout in a file.
    fn file_byte() -> u8
        ensures { result ≡ layout_byte kind };
}

/// A node's base is kept as it is, and each number is in a slot of its own.
pub struct DefaultLayout;

impl Layout for DefaultLayout {
    ghost kind = { default_layout };

    fn keeps_numbers() -> bool {
        false
    }

    fn read_base(field: i32) -> Stored {
        if field < 0 {
            return Stored::Nothing;
        }
        Stored::AtBase(field as usize)
    }

    fn read_node(field: i32) -> Stored {
        Stored::AtBase(field as usize)
    }

    fn base_field(base: usize) -> i32 {
        base as i32
    }

    fn file_byte() -> u8 {
        0
    }
}

/// A node's base `b` is kept as `-(b + 1)`; the number of a node that owns no slot is in its own base field.
pub struct ReducedLayout;

impl Layout for ReducedLayout {
    ghost kind = { reduced_layout };

    fn keeps_numbers() -> bool {
        true
    }

    fn read_base(field: i32) -> Stored {
        if field >= 0 {
            return Stored::OwnNumber(field);
        }
        Stored::AtBase(-(field + 1) as usize)
    }

    fn read_node(field: i32) -> Stored {
        Self::read_base(field)
    }

    fn base_field(base: usize) -> i32 {
        -(base as i32) - 1
    }

    fn file_byte() -> u8 {
        1
    }
}
