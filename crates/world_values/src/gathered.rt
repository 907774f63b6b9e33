//! What was gathered before the world is prepared.

use crate::options::EncoderOptions;
use comp_lists::{Keyed, Seq, SharedBytes, Text};
use comp_roles::LibraryInfo;

/// A required export: by its name, or an interface by its id, so that it is unchanged by later merges.
#[derive(Debug, Drop, PartialEq, Eq, Hash)]
pub enum ExportKey {
    Name(Text),
    Interface(Text),
}

/// A module as it was given: its bytes without the custom sections that the lower layer read, the metadata in
/// those, and the keys that it has to export.
#[derive(Drop)]
pub struct Part<B> {
    pub bytes: SharedBytes,
    pub own: B,
    pub required: Seq<ExportKey>,
}

/// The merged metadata of two modules, and the keys that the second exports.
#[derive(Drop)]
pub struct Merged<B> {
    pub combined: B,
    pub exports: Seq<ExportKey>,
}

/// An adapter as it was given, and what makes it a library, if it is one.
#[derive(Drop)]
pub struct GatheredAdapter<B> {
    pub part: Part<B>,
    pub library_info: Option<LibraryInfo>,
}

/// All that an encoder was given: main, its adapters by their names, in order, the merged metadata of all modules,
/// and the options.
pub struct Gathered<B> {
    pub main: Option<Part<B>>,
    pub adapters: Keyed<Text, GatheredAdapter<B>>,
    pub combined: B,
    pub options: EncoderOptions,
}

impl<B: Drop> Drop for Gathered<B> {
    fn drop(self) {
        let Gathered {
            main: _,
            adapters: _,
            combined: _,
            options: _,
        } = self;
    }
}
