//! The function that is added to a module.

/// A function, as entries of the sections of a module.
#[derive(Clone, Copy)]
pub struct NewFunction<'a> {
    /// Its type, as it is encoded.
    pub func_type: &'a [u8],
    /// The index of that type, the last one.
    pub type_index: u32,
    /// Its own index, the last one.
    pub index: u32,
    /// Its body, as it is encoded, without its size.
    pub body: &'a [u8],
    /// The entry of its export, as it is encoded, where it is exported.
    pub export: Option<&'a [u8]>,
}
