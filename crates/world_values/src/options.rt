//! The options of the encoder.

/// The options of an encoder, each off at first except for `merge_imports_based_on_semver`.
#[derive(Clone, Copy, Debug, PartialEq, Eq)]
pub struct EncoderOptions {
    pub validate: bool,
    pub debug_names: bool,
    pub shim_return_call_ref: bool,
    pub merge_imports_based_on_semver: bool,
    pub emit_canonical_names: bool,
    pub reject_legacy_names: bool,
    pub realloc_via_memory_grow: bool,
}
