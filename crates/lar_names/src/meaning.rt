//! What a name means.
ghost use Rattle.std.specs.Prelude.{◌≡◌};
ghost use Rattle.lar_names.specs.Kinds.{struct_number, const_number, function_number};

/// What a name of a module means: the first item of that name to which a path leads, by its number among those of its kind.
#[derive(Clone, Copy, Debug, PartialEq, Eq, Drop)]
pub enum Meaning {
    Module,
    Struct(usize),
    Const(usize),
    Function(usize),
}

impl Meaning {
    /// The number, where it is a struct.
    pub fn struct_number(self) -> Option<usize>
        ensures { result ≡ struct_number self }
    {
        match self {
            Meaning::Struct(number) => Some(number),
            _ => None,
        }
    }

    /// The number, where it is a constant.
    pub fn const_number(self) -> Option<usize>
        ensures { result ≡ const_number self }
    {
        match self {
            Meaning::Const(number) => Some(number),
            _ => None,
        }
    }

    /// The number, where it is a function.
    pub fn function_number(self) -> Option<usize>
        ensures { result ≡ function_number self }
    {
        match self {
            Meaning::Function(number) => Some(number),
            _ => None,
        }
    }
}
