//! What the records of a module say.

ghost use Rattle.std.specs.Prelude.{◌≡◌, ◌≢◌, map, IfOk, IfErr, IsOk};
ghost use Rattle.json_paths.specs.declared.fault.Failure.TheVariants as records;
ghost use Rattle.record_faults.specs.declared.fault.Failure.TheVariants as failures;
ghost use Rattle.record_faults.specs.declared.fault.PlainFault.{PlainFault};
ghost use Rattle.plain_lower.specs.Causes.{SaidCause, AreApart, DecodeCause};
ghost use Rattle.record_faults.specs.Faults.{Gives, flat};
ghost use Rattle.json_paths.specs.Faults.{Gives as GivesRecord};
ghost use Rattle.plain_lower.specs.ModuleRecords.{records_in, said_in, decoding};

use comp_lists::{Seq, SharedBytes};
use core_sections::{Stripped, strip};
use json_paths::Failure as RecordFailure;
use record_faults::Failure;
use record_merge::{Bindgen, bindgen_of};
use record_values::Record;
use records::read_record;
use std::alloc::Global;

/// The records that texts encode.
fn read_records(alloc: Global, texts: &[&[u8]]) -> Result<Seq<Record>, RecordFailure>
    ensures { GivesRecord (λ rs. rs) result (records_in (map (λ t. t.now) texts.now)) }
{
    let mut records = Seq::new(alloc);
    for text in texts {
        let record = read_record(alloc, text)?;
        records.push(record)?;
    }
    Ok(records)
}

/// What the records together say.
#[tactic(auto, unfolding(crate::specs::ModuleRecords::said_in), using(crate::proofs::Records::said_by_reading))]
fn read_said(alloc: Global, texts: &[&[u8]]) -> Result<Bindgen, RecordFailure>
    ensures exact { GivesRecord (λ b. b) result (said_in (map (λ t. t.now) texts.now)) }
    ensures cause { IfErr result
        (λ e. e ≢ records.Memory → SaidCause (map (λ t. t.now) texts.now) e) }
    ensures apart { IfOk result (λ _. AreApart (map (λ t. t.now) texts.now)) }
{
    let records = read_records(alloc, texts)?;
    bindgen_of(alloc, records)
}

/// A module without its records, and what these say. What is kept before the first record stays where it is.
#[tactic(auto, unfolding(crate::specs::ModuleRecords::decoding))]
pub(crate) fn decode(alloc: Global, mut bytes: Vec<u8>) -> Result<(SharedBytes, Bindgen), Failure>
    ensures exact { Gives (λ d. d) result (decoding bytes.items) }
    ensures cause { IfErr result (λ e. e ≢ failures.Memory → DecodeCause bytes.items (flat e)) }
    ensures refused { IsOk result → (f : PlainFault) → ¬ DecodeCause bytes.items f }
{
    let Stripped {
        prefix,
        rest,
        records,
    } = strip(alloc, &bytes)?;
    let said = read_said(alloc, records.as_slice())?;
    drop(records);
    bytes.truncate(prefix);
    bytes.extend_from_slice(&rest)?;
    Ok((SharedBytes::from_vec(bytes)?, said))
}
