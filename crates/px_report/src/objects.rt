ghost use Rattle.std.specs.Prelude.{◌≡◌, OnOk};
ghost use Rattle.serde_json.specs.Data.{put as with_member};
ghost use Rattle.serde_json.specs.View.{view, members_view};
ghost use Rattle.px_report.specs.Json.{json_number, json_text, with_place};

use px_base::Site;
use px_syntax::Name;
use px_terms::NoMemory;
use px_text_report::name_at;
use serde_json::{Map, Value, put};
use std::alloc::Global;

/// Adds a member.
pub(crate) fn put_member(
    alloc: Global,
    object: &mut Map<String, Value>,
    key: &str,
    value: Value,
) -> Result<(), NoMemory>
    ensures { OnOk result (members_view object.new.entries ≡ with_member key.now (view value) (members_view object.old.entries)) }
{
    put(object, alloc, key, value)?;
    Ok(())
}

/// Adds a member that is a number.
pub(crate) fn put_number(
    alloc: Global,
    object: &mut Map<String, Value>,
    key: &str,
    number: u64,
) -> Result<(), NoMemory>
    ensures { OnOk result (members_view object.new.entries ≡ with_member key.now (json_number number) (members_view object.old.entries)) }
{
    put_member(alloc, object, key, Value::from(number))
}

/// Adds a member that is a text; what isn't UTF-8 in it is replaced.
pub(crate) fn put_text(
    alloc: Global,
    object: &mut Map<String, Value>,
    key: &str,
    bytes: &[u8],
) -> Result<(), NoMemory>
    ensures { OnOk result (members_view object.new.entries ≡ with_member key.now (json_text bytes.now) (members_view object.old.entries)) }
{
    let text = String::from_utf8_lossy(alloc, bytes)?;
    put_member(alloc, object, key, Value::String(text))
}

/// Adds the column, the file and the line of a place.
pub(crate) fn put_place(
    alloc: Global,
    object: &mut Map<String, Value>,
    files: &[Name],
    site: Site,
) -> Result<(), NoMemory>
    ensures { OnOk result (members_view object.new.entries ≡ with_place files.now site (members_view object.old.entries)) }
{
    put_number(alloc, object, "column", u64::from(site.column))?;
    put_text(alloc, object, "file", name_at(files, site.file as usize))?;
    put_number(alloc, object, "line", u64::from(site.line))
}
