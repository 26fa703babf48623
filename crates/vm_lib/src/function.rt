//! The functions of the library, and the numbers by which images call them.
ghost use Rattle.std.specs.Prelude.{◌≡◌, ◌≢◌, MatchOption};
ghost use Rattle.vm_lib.specs.declared.function.LibraryFunction.{LibraryFunction};
ghost use Rattle.vm_lib.specs.Library.{number_of};

/// A function of the library that makes a value of values. Procedures, what prints and what concerns cells, models and
/// events stand elsewhere.
#[derive(Clone, Copy, Debug, PartialEq, Drop)]
pub enum LibraryFunction {
    /// `abs(i)`
    Abs,
    /// `minlist(i, ..)`
    MinList,
    /// `maxlist(i, ..)`
    MaxList,
    /// `isodd(i)`
    IsOdd,
    /// `getsize` of a set, a list, a range or a text.
    GetSize,
    /// `getfirst` of a list or a range.
    GetFirst,
    /// `getlast` of a list or a range.
    GetLast,
    /// `gethead(list, n)`
    GetHead,
    /// `gettail(list, n)`
    GetTail,
    /// `getreverse(list)`, and what `reverse` puts into its list.
    GetReverse,
    /// `findfirst(list, x)`
    FindFirst,
    /// `findlast(list, x)`
    FindLast,
    /// `substr(text, i, j)`
    Substr,
    /// `string(x)`
    TextOf,
    /// `integer` of a text, a truth or an integer.
    IntegerOf,
}

impl LibraryFunction {
    /// The number by which an image calls the function, from 4 to 19.
    pub fn number(self) -> u32
        ensures { result ≡ number_of self }
    {
        match self {
            LibraryFunction::Abs => 4,
            LibraryFunction::MinList => 5,
            LibraryFunction::MaxList => 6,
            LibraryFunction::IsOdd => 7,
            LibraryFunction::GetSize => 8,
            LibraryFunction::GetFirst => 9,
            LibraryFunction::GetLast => 10,
            LibraryFunction::GetHead => 11,
            LibraryFunction::GetTail => 12,
            LibraryFunction::GetReverse => 13,
            LibraryFunction::FindFirst => 15,
            LibraryFunction::FindLast => 16,
            LibraryFunction::Substr => 17,
            LibraryFunction::TextOf => 18,
            LibraryFunction::IntegerOf => 19,
        }
    }

    /// The function of this number, where it is that of one.
    pub fn numbered(number: u32) -> Option<LibraryFunction>
        ensures { MatchOption result
            ((function : LibraryFunction) → number_of function ≢ number)
            (λ function. number_of function ≡ number) }
    {
        match number {
            4 => Some(LibraryFunction::Abs),
            5 => Some(LibraryFunction::MinList),
            6 => Some(LibraryFunction::MaxList),
            7 => Some(LibraryFunction::IsOdd),
            8 => Some(LibraryFunction::GetSize),
            9 => Some(LibraryFunction::GetFirst),
            10 => Some(LibraryFunction::GetLast),
            11 => Some(LibraryFunction::GetHead),
            12 => Some(LibraryFunction::GetTail),
            13 => Some(LibraryFunction::GetReverse),
            15 => Some(LibraryFunction::FindFirst),
            16 => Some(LibraryFunction::FindLast),
            17 => Some(LibraryFunction::Substr),
            18 => Some(LibraryFunction::TextOf),
            19 => Some(LibraryFunction::IntegerOf),
            _ => None,
        }
    }
}
