//! What holds of all encodings: each function's contract is a law, and its body does nothing.

ghost use Rattle.byte_encoding.specs.Laws.{OneNumber, OneTypeIndex, OneName};

/// No form of a number begins another.
pub fn one_number()
    ensures { OneNumber }
{}

/// No form of a type index begins another, where a primitive type is possible.
pub fn one_type_index()
    ensures { OneTypeIndex }
{}

/// No form of a name begins another.
pub fn one_name()
    ensures { OneName }
{}
