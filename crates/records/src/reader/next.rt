// Taking records off the reader.
ghost use Rattle.std.specs.Prelude.{MatchResult};
ghost use Rattle.records.specs.Next.{Taken, Cut};

use crate::fault::RecordFault;
use crate::reader::{Reader, Record};

// how many bytes of a record come before its payload: two for its length, two for its kind
const HEAD: usize = 4;

impl<'a> Reader<'a> {
    // The next record; a record that is cut short leaves the reader as it was. It is not the `next` of an iterator: where no
    // byte is left, the record that is due there is cut short.
    pub fn next(&mut self) -> Result<Record<'a>, RecordFault>
        ensures { MatchResult result (λ rec. Taken self.old self.new rec) (λ e. Cut self.old self.new e) }
    {
        let bytes = self.bytes;
        let place = self.at;
        let cut_short = RecordFault::CutShort { place };
        let [length_low, length_high, kind_low, kind_high, behind @ ..] = &bytes[place..] else {
            return Err(cut_short);
        };
        let length = usize::from(u16::from_le_bytes([*length_low, *length_high]));
        let kind = u16::from_le_bytes([*kind_low, *kind_high]);
        let payload = behind.get(..length).ok_or(cut_short)?;
        self.at += HEAD + length;
        Ok(Record {
            place,
            kind,
            payload,
        })
    }
}
