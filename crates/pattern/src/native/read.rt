//! A whole native text, line after line.
ghost use Rattle.std.specs.Prelude.{◌≡◌, []};
ghost use Rattle.plane.specs.Support.{IsSupportOf};
ghost use Rattle.pattern.specs.NativeReading.{ReadsPattern};

use super::header::read_header;
use super::line::read_line;
use super::place::placed;
use super::split::split;
use super::{PatternBad, PatternWhy};
use crate::{Crease, CreaseMap, Pattern};
use plane::{Seg, SupportLine};
use ports::Stop;
use sheet::{CREASE_LIMIT, Sheet};
use std::alloc::Global;

/// The pattern whose native text these bytes are, or the first bad line and the least number that
/// applies to it.
pub fn read_pattern(alloc: Global, bytes: &[u8]) -> Result<Pattern, Stop<PatternBad>>
    ensures { ReadsPattern bytes.now result }
{
    let Some((sheet, start)) = read_header(bytes) else {
        return Err(Stop::Why(PatternBad {
            line: 1,
            why: PatternWhy::Line,
        }));
    };
    let mut reader = Reader::new(alloc, sheet);
    let mut at = start;
    while at < bytes.len() {
        match reader.take_line(&bytes[at..]) {
            Ok(length) => at += length,
            Err(Stop::NoMemory) => return Err(Stop::NoMemory),
            Err(Stop::Why(why)) => {
                return Err(Stop::Why(PatternBad {
                    line: reader.creases.len() as u64 + 2,
                    why,
                }));
            }
        }
    }
    Ok(Pattern {
        sheet: reader.sheet,
        creases: reader.creases,
    })
}

/// The sheet, and the creases of the lines read so far.
#[derive(Drop)]
struct Reader {
    sheet: Sheet,
    creases: CreaseMap,
    last: Option<Seg>,
}

impl Reader {
    ghost use Rattle.plane.specs.Support.{IsSupportOf};
    ghost use Rattle.pattern.specs.NativeReader.{IsReading, TakesLine, KeepsCrease, CanFollow, on};

    fn new(alloc: Global, sheet: Sheet) -> Reader
        ensures sheet { result.sheet ≡ sheet }
        ensures empty { result.creases ≡ [] }
        ensures reading { IsReading (on result.sheet result.creases) result.last }
    {
        let _w = sheet.w();
        Reader {
            sheet,
            creases: CreaseMap::new(alloc),
            last: None,
        }
    }

    /// Takes the first line of the bytes, and answers its length with its line feed.
    fn take_line(&mut self, bytes: &[u8]) -> Result<usize, Stop<PatternWhy>>
        requires { IsReading (on self.old.sheet self.old.creases) self.old.last }
        ensures { TakesLine (on self.old.sheet self.old.creases) bytes.now
            (on self.new.sheet self.new.creases) self.new.last result }
    {
        let Some((text, _)) = split(bytes, b'\n') else {
            return Err(Stop::Why(PatternWhy::Line));
        };
        let line = match read_line(text) {
            Ok(line) => line,
            Err(why) => return Err(Stop::Why(why)),
        };
        let (seg, support) = match placed(&self.sheet, &line, &self.last) {
            Ok(placed) => placed,
            Err(why) => return Err(Stop::Why(why)),
        };
        let crease = Crease {
            seg,
            colour: line.colour,
        };
        match self.keep(support, crease) {
            Ok(()) => Ok(text.len() + 1),
            Err(why) => Err(why),
        }
    }

    /// Keeps a crease that comes last, of which the line is known, unless it overlaps an earlier one
    /// or is one too many.
    fn keep(&mut self, support: SupportLine, crease: Crease) -> Result<(), Stop<PatternWhy>>
        requires support { IsSupportOf crease.seg support }
        requires reading { IsReading (on self.old.sheet self.old.creases) self.old.last }
        requires follows { CanFollow (on self.old.sheet self.old.creases) crease.seg }
        ensures { KeepsCrease (on self.old.sheet self.old.creases) crease
            (on self.new.sheet self.new.creases) self.new.last result }
    {
        if self.creases.len() >= CREASE_LIMIT {
            if self.creases.is_free(&crease.seg) {
                return Err(Stop::Why(PatternWhy::TooMany));
            }
            return Err(Stop::Why(PatternWhy::Overlap));
        }
        if !self.creases.put_if_free_on(support, crease)? {
            return Err(Stop::Why(PatternWhy::Overlap));
        }
        self.last = Some(crease.seg);
        Ok(())
    }
}
