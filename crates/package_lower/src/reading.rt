//! What the sections that describe a component say: records, and WIT packages in binary form.

ghost use Rattle.std.specs.Prelude.{◌≡◌, [], option_map, Err};
ghost use Rattle.package_lower.specs.Faults.{Gives};
ghost use Rattle.package_lower.specs.Reading.{is_binary, is_begin, reason_left_out, left_out, record_of, refusal_of, of_package, of_text, text_step, records_after};

use crate::fault::{Failure, Refusal};
use comp_lists::{Bytes, Keyed, Seq, Text};
use package_syntax::Reason;
use record_faults::Refusal as PlainRefusal;
use record_values::Record;
use records::read_record;
use std::alloc::Global;
use wit_packages::{Package, PackageFault, read_package};

// ---- which it is

fn is_begin(byte: u8) -> bool
    ensures { result ≡ is_begin byte }
{
    byte == 0 || byte == 3
}

/// Whether a text is binary, in whatever form, as no text of JSON is.
pub(crate) fn is_binary(text: &[u8]) -> bool
    ensures { result ≡ is_binary text.now }
{
    match text.first() {
        Some(byte) => is_begin(*byte),
        None => false,
    }
}

// ---- packages

/// The name of a form that is left out, if it is one.
fn reason_left_out(reason: Reason) -> Option<&'static str>
    ensures { option_map (λ t. t.now) result ≡ reason_left_out reason }
{
    match reason {
        Reason::OldForm => Some("package-before-components"),
        Reason::FixedLengthList => Some("fixed-length-list"),
        Reason::Map => Some("map"),
        _ => None,
    }
}

fn left_out(fault: PackageFault) -> Option<&'static str>
    ensures { option_map (λ t. t.now) result ≡ left_out fault }
{
    match fault {
        PackageFault::Syntax(refusal) => reason_left_out(refusal.reason),
        _ => None,
    }
}

/// The refusal of a package.
fn refuse(alloc: Global, section: usize, fault: PackageFault) -> Result<Record, Failure>
    ensures { Gives (λ r. r) result (Err (refusal_of section fault)) }
{
    match left_out(fault) {
        Some(what) => {
            let what = Text::from_str(alloc, what)?;
            Err(Failure::Refused(Refusal::Plain(PlainRefusal::LeftOut { what })))
        }
        None => Err(Failure::Refused(Refusal::Package { section, fault })),
    }
}

/// The record of a package, which gives no roles.
fn record_of(alloc: Global, package: Package) -> Record
    ensures { result ≡ record_of «package» }
{
    let Package {
        name: _,
        id: _,
        encoding,
        wit,
    } = package;
    Record {
        wit,
        encoding,
        context_slot_1: false,
        import_roles: Seq::new(alloc),
        export_roles: Seq::new(alloc),
    }
}

fn of_package(alloc: Global, section: usize, text: &[u8]) -> Result<Record, Failure>
    ensures { Gives (λ r. r) result (of_package section text.now) }
{
    match read_package(alloc, text) {
        Ok(package) => Ok(record_of(alloc, package)),
        Err(PackageFault::Memory) => Err(Failure::Memory),
        Err(PackageFault::Syntax(refusal)) => {
            refuse(alloc, section, PackageFault::Syntax(refusal))
        }
        Err(PackageFault::Sections(lack)) => refuse(alloc, section, PackageFault::Sections(lack)),
        Err(PackageFault::Declaration { declaration, wrong }) => {
            let fault = PackageFault::Declaration { declaration, wrong };
            refuse(alloc, section, fault)
        }
    }
}

// ---- all of them

/// What the text of a section says.
fn of_text(alloc: Global, section: usize, text: &[u8]) -> Result<Record, Failure>
    ensures { Gives (λ r. r) result (of_text section text.now) }
{
    if is_binary(text) {
        return of_package(alloc, section, text);
    }
    Ok(read_record(alloc, text)?)
}

/// Adds what the text of a further section says.
fn add_record(alloc: Global, records: &mut Seq<Record>, text: &Bytes) -> Result<(), Failure>
    ensures { Gives (λ _. records.new) result (text_step records.old text.now) }
{
    let section = records.len();
    let record = of_text(alloc, section, text.as_slice())?;
    Ok(records.push(record)?)
}

/// What the texts of sections say, one by one.
pub(crate) fn records_of(alloc: Global, texts: &Keyed<Bytes, ()>) -> Result<Seq<Record>, Failure>
    ensures { Gives (λ rs. rs) result (records_after [] texts.now) }
{
    let mut records = Seq::new(alloc);
    for (text, _) in texts.iter() {
        add_record(alloc, &mut records, text)?;
    }
    Ok(records)
}
