//! Modules, and the components that they are to become.

/// A module that is nothing but the preamble.
pub(crate) const EMPTY: &[u8] = b"\0asm\x01\0\0\0";

/// Its component: the module, an instance of it, and names.
pub(crate) const EMPTY_COMPONENT: &[u8] =
    b"\0asm\x0d\0\x01\0\x01\x08\0asm\x01\0\0\0\x02\x04\x01\0\0\0\0%\x0ecomponent-name\
    \x01\x09\0\x11\x01\0\x04main\x01\x09\0\x12\x01\0\x04main";

/// A module that imports `f` of `$root` and exports `g`, with a record that makes its import a root
/// function of the world, and its export another.
pub(crate) const MAIN: &[u8] =
    b"\0asm\x01\0\0\0\x01\x04\x01`\0\0\x02\x0b\x01\x05$root\x01f\0\0\x03\x02\x01\0\x07\
    \x05\x01\x01g\0\x01\x0a\x04\x01\x02\0\x0b\0\xf1\x01\x0ecomponent-type{\"version\
    \":1,\"imports\":[{\"func\":{\"name\":\"f\"}}],\"exports\":[{\"func\":{\"name\":\
    \"g\"}}],\"core-imports\":[{\"module\":\"$root\",\"field\":\"f\",\"role\":[\"wor\
    ld-func\",\"f\",\"sync\"]}],\"core-exports\":[{\"field\":\"g\",\"role\":[\"world\
    -func\",\"g\",\"sync\"]}]}";

/// Its component.
pub(crate) const COMPONENT: &[u8] =
    b"\0asm\x0d\0\x01\0\x07\x05\x01@\0\x01\0\x0a\x06\x01\0\x01f\x01\0\x01,\0asm\x01\0\
    \0\0\x01\x04\x01`\0\0\x02\x0b\x01\x05$root\x01f\0\0\x03\x02\x01\0\x07\x05\x01\
    \x01g\0\x01\x0a\x04\x01\x02\0\x0b\x08\x05\x01\x01\0\0\0\x02\x12\x02\x01\x01\x01f\
    \0\0\0\0\x01\x05$root\x12\0\x06\x07\x01\0\0\x01\x01\x01g\x08\x06\x01\0\0\x01\0\0\
    \x0b\x07\x01\0\x01g\x01\x01\0\0>\x0ecomponent-name\x01\x09\0\0\x02\0\x01f\x01\
    \x01g\x01\x09\0\x11\x01\0\x04main\x01\x10\0\x12\x02\0\x05$root\x01\x04main\x01\
    \x05\x01\x01\x01\x01g";

/// The same, where the function that the world imports is called `1f`: no name of an import.
pub(crate) const DIGIT_FIRST: &[u8] =
    b"\0asm\x01\0\0\0\x01\x04\x01`\0\0\x02\x0b\x01\x05$root\x01f\0\0\x03\x02\x01\0\x07\
    \x05\x01\x01g\0\x01\x0a\x04\x01\x02\0\x0b\0\xf3\x01\x0ecomponent-type{\"version\
    \":1,\"imports\":[{\"func\":{\"name\":\"1f\"}}],\"exports\":[{\"func\":{\"name\":\
    \"g\"}}],\"core-imports\":[{\"module\":\"$root\",\"field\":\"f\",\"role\":[\"wor\
    ld-func\",\"1f\",\"sync\"]}],\"core-exports\":[{\"field\":\"g\",\"role\":[\"world\
    -func\",\"g\",\"sync\"]}]}";

/// A module that imports `f` of `a:b/i`, which takes a string, and exports its memory: `f` is lowered behind a shim.
pub(crate) const SHIMMED: &[u8] =
    b"\0asm\x01\0\0\0\x01\x06\x01`\x02\x7f\x7f\0\x02\x0b\x01\x05a:b/i\x01f\0\0\x05\x03\
    \x01\0\x01\x07\x0a\x01\x06memory\x02\0\0\xa3\x02\x0ecomponent-type{\"version\":1\
    ,\"interfaces\":[{\"id\":\"a:b/i\",\"types\":[],\"functions\":[{\"name\":\"f\",\
    \"params\":[[\"s\",\"string\"]]}]}],\"imports\":[{\"interface\":0}],\"core-impor\
    ts\":[{\"module\":\"a:b/i\",\"field\":\"f\",\"role\":[\"interface-func\",0,\"f\"\
    ,\"sync\"]}],\"core-exports\":[{\"field\":\"memory\",\"role\":[\"memory\"]}]}";

/// Its component by an independent encoder, whose generated modules have no names.
pub(crate) const UNNAMED_COMPONENT: &[u8] =
    b"\0asm\x0d\0\x01\0\x07\x11\x01B\x02\x01@\x01\x01ss\x01\0\x04\0\x01f\x01\0\x0a\x0a\
    \x01\0\x05a:b/i\x05\0\x01.\0asm\x01\0\0\0\x01\x06\x01`\x02\x7f\x7f\0\x02\x0b\x01\
    \x05a:b/i\x01f\0\0\x05\x03\x01\0\x01\x07\x0a\x01\x06memory\x02\0\x01<\0asm\x01\0\
    \0\0\x01\x06\x01`\x02\x7f\x7f\0\x03\x02\x01\0\x04\x05\x01p\x01\x01\x01\x07\x10\
    \x02\x010\0\0\x08$imports\x01\0\x0a\x0d\x01\x0b\0 \0 \x01A\0\x11\0\0\x0b\x02\x04\
    \x01\0\x01\0\x06\x07\x01\0\0\x01\0\x010\x02\x12\x02\x01\x01\x01f\0\0\0\0\x01\x05\
    a:b/i\x12\x01\x06\x0c\x01\0\x02\x01\x02\x06memory\x01:\0asm\x01\0\0\0\x01\x06\
    \x01`\x02\x7f\x7f\0\x02\x1f\x02\x06actual\x010\0\0\x04shim\x08$imports\x01p\x01\
    \x01\x01\x09\x07\x01\0A\0\x0b\x01\0\x06\x06\x01\x01\0\0\x01f\x08\x08\x01\x01\0\0\
    \x02\x03\0\0\x02\x1a\x02\x01\x01\x010\0\x01\0\x02\x02\x06actual\x12\x03\x04shim\
    \x12\0\0\xcc\x01\x0ecomponent-name\x01'\0\0\x02\0\x10indirect-a:b/i-f\x01\x10ind\
    irect-a:b/i-f\x01\x0b\0\x02\x01\0\x06memory\x019\0\x11\x03\0\x04main\x01\x19wit-\
    component-shim-module\x02\x13wit-component-fixup\x01<\0\x12\x05\0\x1bwit-compone\
    nt-shim-instance\x01\x05a:b/i\x02\x04main\x03\x06actual\x04\x05fixup\x01\x0c\x03\
    \x01\0\x08ty-a:b/i";

/// The same with a section of names in each of the two generated modules.
pub(crate) const NAMED_COMPONENT: &[u8] =
    b"\0asm\x0d\0\x01\0\x07\x11\x01B\x02\x01@\x01\x01ss\x01\0\x04\0\x01f\x01\0\x0a\x0a\
    \x01\0\x05a:b/i\x05\0\x01.\0asm\x01\0\0\0\x01\x06\x01`\x02\x7f\x7f\0\x02\x0b\x01\
    \x05a:b/i\x01f\0\0\x05\x03\x01\0\x01\x07\x0a\x01\x06memory\x02\0\x01m\0asm\x01\0\
    \0\0\x01\x06\x01`\x02\x7f\x7f\0\x03\x02\x01\0\x04\x05\x01p\x01\x01\x01\x07\x10\
    \x02\x010\0\0\x08$imports\x01\0\x0a\x0d\x01\x0b\0 \0 \x01A\0\x11\0\0\x0b\0/\x04n\
    ame\0\x13\x12wit-component:shim\x01\x13\x01\0\x10indirect-a:b/i-f\x02\x04\x01\0\
    \x01\0\x06\x07\x01\0\0\x01\0\x010\x02\x12\x02\x01\x01\x01f\0\0\0\0\x01\x05a:b/i\
    \x12\x01\x06\x0c\x01\0\x02\x01\x02\x06memory\x01^\0asm\x01\0\0\0\x01\x06\x01`\
    \x02\x7f\x7f\0\x02\x1f\x02\x06actual\x010\0\0\x04shim\x08$imports\x01p\x01\x01\
    \x01\x09\x07\x01\0A\0\x0b\x01\0\0\"\x04name\0\x15\x14wit-component:fixups\x01\
    \x04\x01\0\x010\x06\x06\x01\x01\0\0\x01f\x08\x08\x01\x01\0\0\x02\x03\0\0\x02\x1a\
    \x02\x01\x01\x010\0\x01\0\x02\x02\x06actual\x12\x03\x04shim\x12\0\0\xcc\x01\x0ec\
    omponent-name\x01'\0\0\x02\0\x10indirect-a:b/i-f\x01\x10indirect-a:b/i-f\x01\x0b\
    \0\x02\x01\0\x06memory\x019\0\x11\x03\0\x04main\x01\x19wit-component-shim-module\
    \x02\x13wit-component-fixup\x01<\0\x12\x05\0\x1bwit-component-shim-instance\x01\
    \x05a:b/i\x02\x04main\x03\x06actual\x04\x05fixup\x01\x0c\x03\x01\0\x08ty-a:b/i";

/// The lines that are printed of the component of `MAIN`.
pub(crate) const LINES: &str = "type 0 = 40000100\n\
    func 0 = import \"f\" 0100\n\
    core-module 0 = 44 bytes\n\
    core-func 0 = lower 0\n\
    core-instance 0 = exports \"f\"=func 0\n\
    core-instance 1 = instantiate 0 \"$root\"=0\n\
    core-func 1 = alias 1 \"g\"\n\
    func 1 = lift 1 0\n\
    func 2 = export \"g\" func 1\n\
    custom \"component-name\" 47 bytes\n";

/// A module whose record is a package in the component model's binary format.
pub(crate) const PACKAGE: &[u8] = b"\0asm\x01\0\0\0\0\x17\x0ecomponent-type\0asm\x0d\0\x01\0";

/// A module whose record is no JSON. The size of its section is written in five bytes.
pub(crate) const OPEN: &[u8] = b"\0asm\x01\0\0\0\0\x90\x80\x80\x80\0\x0ecomponent-type{";

/// A module that ends in the middle of its record.
pub(crate) const CUT: &[u8] = b"\0asm\x01\0\0\0\0\x17\x0ecomponent-type{\"ver";

/// A module that imports a memory and has an active data segment for it.
pub(crate) const DATA: &[u8] =
    b"\0asm\x01\0\0\0\x02\x0f\x01\x03env\x06memory\x02\0\0\x0b\x07\x01\0A\0\x0b\x01a";
