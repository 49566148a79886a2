//! Writing the restriction of a line.
ghost use Rattle.std.specs.Prelude.{◌≡◌, ◌++◌, [], ◌∷◌, OnOk};
ghost use Rattle.pp_format_write.specs.Statable.{IsWritableStart};
ghost use Rattle.pp_cmd_focus.specs.Restrictions.{with_return};
ghost use Rattle.pp_cmd_focus.specs.Subjects.{subject_in, subject_written};
ghost use Rattle.pp_cmd_focus.specs.Taking.{CanWrite, progress_line, progress_shown};

use crate::ending::end_line;
use crate::header::header_line;
use crate::located::{Located, Never};
use crate::subject::Subject;
use pp_core::{Name, OutOfMemory, Text};
use pp_format_read::Header;
use pp_input::is_blank;
use pp_judge::Progress;
use std::alloc::Global;

/// Writes the restriction of a line that is about this to the object at a place.
fn write_subject(
    alloc: Global,
    place: u16,
    header: &Header,
    subject: &Subject,
    bytes: &[u8],
    text: &mut Text,
) -> Result<(), OutOfMemory>
    requires { IsWritableStart header.now.catalog header.now.start }
    ensures { OnOk result
        (text.new ≡ text.old ++ subject_written place header.now subject.now bytes.now) }
{
    match subject {
        Subject::Header => {
            let line = header_line(alloc, header, place)?;
            text.append(line.bytes())
        }
        Subject::Object(object) => {
            if *object == place {
                text.append(bytes)
            } else {
                Ok(())
            }
        }
        Subject::Begin(line) => text.append(line.bytes()),
        Subject::Alone => text.append(bytes),
    }
}

/// The same for the object of a name, and nothing if the header has none.
fn write_named(
    alloc: Global,
    name: &Name,
    header: &Header,
    subject: &Subject,
    bytes: &[u8],
    text: &mut Text,
) -> Result<(), OutOfMemory>
    requires { IsWritableStart header.now.catalog header.now.start }
    ensures { OnOk result
        (text.new ≡ text.old ++ subject_in name.now header.now subject.now bytes.now) }
{
    match header.catalog.place(name) {
        Some(place) => write_subject(alloc, place, header, subject, bytes, text),
        None => Ok(()),
    }
}

/// Writes the restriction of a line that is not blank, after which the run is here.
fn write_shown(
    alloc: Global,
    name: &Name,
    progress: &Progress<Located, Never>,
    bytes: &[u8],
    text: &mut Text,
) -> Result<(), OutOfMemory>
    requires { CanWrite progress.now }
    ensures { OnOk result
        (text.new ≡ text.old ++ progress_shown name.now progress.now bytes.now) }
{
    match progress {
        Progress::Running(tally, located) => write_named(
            alloc,
            name,
            &tally.header,
            &located.subject,
            bytes,
            text,
        ),
        Progress::Waiting(_) | Progress::Rejected(_, _) => Ok(()),
    }
}

/// Writes the restriction of a line with its end. After the line the run is here.
pub(crate) fn write_line(
    alloc: Global,
    name: &Name,
    progress: &Progress<Located, Never>,
    bytes: &[u8],
    text: &mut Text,
) -> Result<(), OutOfMemory>
    requires { CanWrite progress.now }
    ensures { OnOk result (text.new ≡ text.old
        ++ with_return (progress_line name.now progress.now bytes.now) ++ 10 ∷ []) }
{
    let start = text.len();
    if is_blank(bytes) {
        text.append(bytes)?;
    } else {
        write_shown(alloc, name, progress, bytes, text)?;
    }
    end_line(text, start)
}
