//! Links as text.

ghost use Rattle.std.specs.Prelude.{◌≡◌, ◌<◌, ◌++◌, IfOk, OnOk, string_bytes, codes};
ghost use Rattle.std.specs.List.{flat_map};
ghost use Rattle.std.specs.Char.{encode_utf8};
ghost use Rattle.hex.specs.Hex.{encode_lower};
ghost use Rattle.comp_lines.specs.Texts.{quoted};
ghost use Rattle.found_links.specs.Forms.{text_line, entity, entities, mermaid_node, mermaid_edge, mermaid_line, dot_line, line, beginning, end, shown};

use crate::link::Link;
use comp_lines::{put_hex, put_quoted};
use comp_lists::Text;
use std::alloc::{AllocError, Global};

/// A form of text that shows links.
#[derive(Clone, Copy, Debug, PartialEq, Eq)]
pub enum Form {
    /// A line for each link.
    Text,
    /// A flow chart in the language of Mermaid.
    Mermaid,
    /// A graph in the language of Graphviz.
    Dot,
}

/// Writes one text after another.
fn put_both(out: &mut String, first: &Text, second: &Text) -> Result<(), AllocError>
    ensures { OnOk result
        (string_bytes out.new ≡ string_bytes out.old ++ (first.now ++ second.now)) }
{
    out.push_str(first.as_str())?;
    out.push_str(second.as_str())?;
    Ok(())
}

fn put_text_line(out: &mut String, link: &Link) -> Result<(), AllocError>
    ensures { OnOk result (string_bytes out.new ≡ string_bytes out.old ++ text_line link.now) }
{
    put_both(out, &link.user, &link.name)?;
    out.push_str(" = ")?;
    put_both(out, &link.source, &link.how)?;
    out.push_str("\n")?;
    Ok(())
}

// ---- Mermaid

fn put_entity_of(out: &mut String, byte: u8) -> Result<(), AllocError>
    requires { byte < 128 }
    ensures { OnOk result (string_bytes out.new ≡ string_bytes out.old ++ entity byte) }
{
    if byte == b'"' {
        return out.push_str("#quot;");
    }
    if byte == b'#' {
        return out.push_str("#35;");
    }
    if byte == b'&' {
        return out.push_str("#amp;");
    }
    if byte == b'<' {
        return out.push_str("#lt;");
    }
    if byte == b'>' {
        return out.push_str("#gt;");
    }
    out.push(char::from(byte))
}

/// Writes a character of a label.
#[tactic(auto, using(crate::proofs::Entities::unchanged))]
fn put_entity(out: &mut String, c: char) -> Result<(), AllocError>
    ensures { OnOk result
        (string_bytes out.new ≡ string_bytes out.old ++ flat_map entity (encode_utf8 c)) }
{
    if c.is_ascii() {
        put_entity_of(out, c as u32 as u8)
    } else {
        out.push(c)
    }
}

fn put_entities(out: &mut String, text: &str) -> Result<(), AllocError>
    ensures { OnOk result (string_bytes out.new ≡ string_bytes out.old ++ entities text.now) }
{
    for c in text.chars() {
        put_entity(out, c)?;
    }
    Ok(())
}

fn put_node_name(out: &mut String, text: &str) -> Result<(), AllocError>
    ensures { OnOk result
        (string_bytes out.new ≡ string_bytes out.old ++ (codes "n" ++ encode_lower text.now)) }
{
    out.push_str("n")?;
    put_hex(out, text.as_bytes())?;
    Ok(())
}

fn put_node(out: &mut String, text: &str) -> Result<(), AllocError>
    ensures { OnOk result (string_bytes out.new ≡ string_bytes out.old ++ mermaid_node text.now) }
{
    put_node_name(out, text)?;
    out.push_str("[\"")?;
    put_entities(out, text)?;
    out.push_str("\"]")?;
    Ok(())
}

fn put_edge(out: &mut String, link: &Link) -> Result<(), AllocError>
    ensures { OnOk result (string_bytes out.new ≡ string_bytes out.old ++ mermaid_edge link.now) }
{
    out.push_str(" -->|\" ")?;
    put_entities(out, link.name.as_str())?;
    put_entities(out, link.how.as_str())?;
    out.push_str("\"| ")?;
    Ok(())
}

fn put_mermaid_line(out: &mut String, link: &Link) -> Result<(), AllocError>
    ensures { OnOk result (string_bytes out.new ≡ string_bytes out.old ++ mermaid_line link.now) }
{
    out.push_str("\n  ")?;
    put_node(out, link.user.as_str())?;
    put_edge(out, link)?;
    put_node(out, link.source.as_str())?;
    Ok(())
}

// ---- Graphviz

/// Writes a word, and a text in quotes.
fn put_word_and_quoted(out: &mut String, word: &str, text: &str) -> Result<(), AllocError>
    ensures { OnOk result
        (string_bytes out.new ≡ string_bytes out.old ++ (word.now ++ quoted text.now)) }
{
    out.push_str(word)?;
    put_quoted(out, text)?;
    Ok(())
}

fn label_of(alloc: Global, link: &Link) -> Result<String, AllocError>
    ensures { IfOk result (λ t. string_bytes t ≡ link.now.name ++ link.now.how) }
{
    let mut label = String::new(alloc);
    put_both(&mut label, &link.name, &link.how)?;
    Ok(label)
}

fn put_dot_parts(out: &mut String, link: &Link, label: &str) -> Result<(), AllocError>
    ensures { OnOk result (string_bytes out.new ≡ string_bytes out.old
        ++ ((codes "\n  " ++ quoted link.now.user) ++ (codes " -> " ++ quoted link.now.source)
        ++ (codes " [label=" ++ quoted label.now) ++ codes "];")) }
{
    put_word_and_quoted(out, "\n  ", link.user.as_str())?;
    put_word_and_quoted(out, " -> ", link.source.as_str())?;
    put_word_and_quoted(out, " [label=", label)?;
    out.push_str("];")?;
    Ok(())
}

fn put_dot_line(alloc: Global, out: &mut String, link: &Link) -> Result<(), AllocError>
    ensures { OnOk result (string_bytes out.new ≡ string_bytes out.old ++ dot_line link.now) }
{
    let label = label_of(alloc, link)?;
    put_dot_parts(out, link, label.as_str())
}

// ---- all forms

fn put_line(alloc: Global, out: &mut String, form: Form, link: &Link) -> Result<(), AllocError>
    ensures { OnOk result (string_bytes out.new ≡ string_bytes out.old ++ line form link.now) }
{
    match form {
        Form::Text => put_text_line(out, link),
        Form::Mermaid => put_mermaid_line(out, link),
        Form::Dot => put_dot_line(alloc, out, link),
    }
}

fn put_lines(alloc: Global, out: &mut String, form: Form, links: &[Link]) -> Result<(), AllocError>
    ensures { OnOk result
        (string_bytes out.new ≡ string_bytes out.old ++ flat_map (line form) links.now) }
{
    for link in links {
        put_line(alloc, out, form, link)?;
    }
    Ok(())
}

fn beginning_of(form: Form) -> &'static str
    ensures { result.now ≡ beginning form }
{
    match form {
        Form::Text => "",
        Form::Mermaid => "flowchart LR",
        Form::Dot => "digraph links {\n  rankdir=LR;",
    }
}

fn end_of(form: Form) -> &'static str
    ensures { result.now ≡ end form }
{
    match form {
        Form::Text => "",
        Form::Mermaid => "\n",
        Form::Dot => "\n}\n",
    }
}

fn put_shown(alloc: Global, out: &mut String, form: Form, links: &[Link]) -> Result<(), AllocError>
    ensures { OnOk result (string_bytes out.new ≡ string_bytes out.old ++ shown form links.now) }
{
    out.push_str(beginning_of(form))?;
    put_lines(alloc, out, form, links)?;
    out.push_str(end_of(form))?;
    Ok(())
}

/// The text of links in a form. It takes time in the size of the links, and refuses only when out of
/// memory.
pub fn show_links(alloc: Global, form: Form, links: &[Link]) -> Result<String, AllocError>
    ensures { IfOk result (λ text. string_bytes text ≡ shown form links.now) }
{
    let mut text = String::new(alloc);
    put_shown(alloc, &mut text, form, links)?;
    Ok(text)
}
