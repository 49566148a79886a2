//! The first line of a run.
ghost use Rattle.std.specs.Prelude.{◌≡◌, ◌≤◌, ◌<◌, ℕ, List, [], length, suc, Ok, IfOk};
ghost use Rattle.serde_json.specs.View.{view, items_view};
ghost use Rattle.pp_core.specs.Catalogs.{place_of};
ghost use Rattle.pp_format_read.specs.Reading.{Gives};
ghost use Rattle.pp_format_read.specs.Headers.{object_in, with_object, objects_in, catalog_of, header_of};
ghost use Rattle.pp_format_read.specs.Headers.{version_from, version_of, versioned_start};
ghost use Rattle.pp_format_read.specs.Starts.{IsReadableStart};
ghost use Rattle.pp_format_read.specs.declared.header.Header.{Header as HeaderOf};

use crate::fault::RecordFault;
use crate::members::{array_in, name_in, object_on, text_in, whole_in};
use crate::start::{Start, optional_start};
use pp_core::{Catalog, Kind, MOST_OBJECTS, Member, Name, Style};
use serde_json::Value;
use std::alloc::Global;

/// The first line of a run: how the run was recorded, over which objects, and which operations are
/// committed before the first step.
#[derive(Drop)]
pub struct Header {
    pub style: Style,
    pub catalog: Catalog,
    pub start: Option<Start>,
}

/// The version of the format, of which the second has a start.
#[derive(Clone, Copy, Debug, PartialEq, Eq)]
enum Version {
    First,
    Second,
}

#[tactic(auto, unfolding(crate::specs::Headers::object_in))]
fn object_behind(before: &Catalog, value: &Value) -> Result<(Name, Kind), RecordFault>
    ensures reads { Gives (λ x. x) result (object_in before.now (view value.now)) }
    ensures new { IfOk result (λ object. place_of object.0 before.now ≡ None) }
{
    if !value.is_object() {
        return Err(RecordFault::WrongType(Member::Objects));
    }
    let name = name_in(value, Member::Name)?;
    if before.place(&name).is_some() {
        return Err(RecordFault::RepeatedObject);
    }
    let word = text_in(value, Member::Kind)?;
    let kind = Kind::named(word).ok_or(RecordFault::UnknownKind)?;
    Ok((name, kind))
}

#[tactic(auto, unfolding(crate::specs::Headers::with_object))]
fn with_object(mut catalog: Catalog, value: &Value) -> Result<Catalog, RecordFault>
    requires { length catalog < MOST_OBJECTS }
    ensures reads { Gives (λ c. c) result (with_object catalog (view value.now)) }
    ensures one_more { IfOk result (λ c. length c ≡ suc (length catalog)) }
{
    let (name, kind) = object_behind(&catalog, value)?;
    let _ = catalog.add(name, kind)?;
    Ok(catalog)
}

#[tactic(auto, using(crate::proofs::Objects::walk))]
fn objects_among(alloc: Global, values: &[Value]) -> Result<Catalog, RecordFault>
    requires { length values.now ≤ MOST_OBJECTS }
    ensures { Gives (λ c. c) result (objects_in [] (items_view values.now)) }
{
    let mut catalog = Catalog::new(alloc);
    for value in values {
        catalog = with_object(catalog, value)?;
    }
    Ok(catalog)
}

/// The objects that a header names.
#[tactic(auto, unfolding(crate::specs::Headers::catalog_of), using(crate::proofs::Objects::count_view))]
pub fn catalog_in(alloc: Global, value: &Value) -> Result<Catalog, RecordFault>
    ensures { Gives (λ c. c) result (catalog_of (view value.now)) }
{
    let values = array_in(value, Member::Objects)?;
    if values.len() > MOST_OBJECTS {
        return Err(RecordFault::TooManyObjects);
    }
    objects_among(alloc, values)
}

#[tactic(auto, unfolding(crate::specs::Headers::version_from))]
fn version_from(run: i128) -> Option<Version>
    ensures { result ≡ version_from run }
{
    match run {
        1 => Some(Version::First),
        2 => Some(Version::Second),
        _ => None,
    }
}

#[tactic(auto, unfolding(crate::specs::Headers::version_of))]
fn version_in(value: &Value) -> Result<Version, RecordFault>
    ensures { Gives (λ v. v) result (version_of (view value.now)) }
{
    let run = whole_in(value, Member::Run)?;
    version_from(run).ok_or(RecordFault::OutOfRange(Member::Run))
}

fn versioned_start(
    alloc: Global,
    version: Version,
    catalog: &Catalog,
    value: &Value,
) -> Result<Option<Start>, RecordFault>
    ensures { Gives (λ s. s) result (versioned_start version catalog.now (view value.now)) }
{
    match version {
        Version::First => Ok(None),
        Version::Second => optional_start(alloc, catalog, value),
    }
}

/// Reads the first line of a run. If there are several faults, it returns the one that is tested
/// first.
#[tactic(auto, unfolding(crate::specs::Headers::header_of))]
pub fn read_header(alloc: Global, line: &[u8]) -> Result<Header, RecordFault>
    ensures reads { Gives (λ h. h) result (header_of line.now) }
    ensures readable { IfOk result (λ h. IsReadableStart h.catalog h.start) }
{
    let value = object_on(alloc, line)?;
    let version = version_in(&value)?;
    let word = text_in(&value, Member::Style)?;
    let style = Style::named(word).ok_or(RecordFault::UnknownStyle)?;
    let catalog = catalog_in(alloc, &value)?;
    let start = versioned_start(alloc, version, &catalog, &value)?;
    Ok(Header {
        style,
        catalog,
        start,
    })
}

/// The start of a header is readable, whatever the line. It is a law of the definitions, and does
/// nothing.
pub fn start_law()
    ensures { (line : List ℕ) (header : HeaderOf) → header_of line ≡ Ok header
        → IsReadableStart header.catalog header.start }
{}
