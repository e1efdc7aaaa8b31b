// The first 13 bytes of a scheme file, and what they may say.
ghost use Rattle.std.specs.Prelude.{◌≡◌, ◌<◌, ◌≤◌, true, false, length, Some, None, MatchResult, slice_index};
ghost use Rattle.std.specs.Range.{range_inclusive_start, range_inclusive_end, range_inclusive_exhausted};
ghost use Rattle.faults.specs.declared.Fault.TheVariants.{FileField};
ghost use Rattle.faults.specs.Refusal.{refusal};
ghost use Rattle.files.specs.Held.{family_number, contents};
ghost use Rattle.files.specs.Contents.{fields_of};
ghost use Rattle.files.specs.Layout.{head_bytes, fields_at, value_size, rows_size, table_size, file_length};
ghost use Rattle.files.specs.Limits.{outside, greatest_base, wrong_field, refuse_field, marked, head_refusal};

use crate::{Family, SchemeFile};
use faults::Fault;
use std::ops::RangeInclusive;

// How many bytes stand before a form's own.
pub(crate) const HEADER: usize = 13;

// The first three bytes.
const MARK: [u8; 3] = *b"PDS";

const VERSION: u16 = 1;

// The form that the header names. What the form holds stands after the header.
#[derive(Clone, Copy)]
pub(crate) enum FormKind {
    Table,
    Shifts,
    Multiplier,
}

impl FormKind {
    ghost use Rattle.files.specs.Header.{kind_number};

    // How many bytes of the form's own stand before the check rows.
    pub(crate) fn own_size(self) -> usize
        ensures { result ≡ value_size (kind_number self) }
    {
        match self {
            FormKind::Table => 0,
            FormKind::Shifts => 1, // step
            FormKind::Multiplier => 3, // step, factor, powers
        }
    }
}

impl From<FormKind> for u8 {
    ghost use Rattle.files.specs.Header.{kind_number};

    ghost from_gives = { λ kind number. number ≡ kind_number kind };

    fn from(kind: FormKind) -> u8 {
        match kind {
            FormKind::Table => 0,
            FormKind::Shifts => 1,
            FormKind::Multiplier => 2,
        }
    }
}

// Byte 10 of a file names the form.
impl TryFrom<u8> for FormKind {
    type Error = Fault;

    ghost use Rattle.files.specs.Header.{NamesForm};

    ghost try_from_gives = { NamesForm };

    fn try_from(number: u8) -> Result<Self, Fault> {
        match number {
            0 => Ok(FormKind::Table),
            1 => Ok(FormKind::Shifts),
            2 => Ok(FormKind::Multiplier),
            _ => Err(Fault::FileField { byte: 10 }),
        }
    }
}

// The fields of a header that has passed the checks of `Header::fields`.
#[derive(Clone, Copy)]
pub(crate) struct Header {
    pub family: Family,
    pub base: u8,
    pub n: u8,
    pub k: u8,
    pub t: u8,
    pub form: FormKind,
    pub count: u16,
    ghost order: { k < n },
}

impl Header {
    ghost use Rattle.files.specs.Header.{fields};

    // The header of a file that has the mark and the version, and fields within their values.
    pub(crate) fn read(file: &[u8]) -> Result<Header, Fault>
        ensures { MatchResult result (λ h. (head_refusal file.now ≡ None) × (fields h ≡ fields_at file.now)) (λ e. head_refusal file.now ≡ Some (refusal e)) }
    {
        if file.len() < HEADER {
            return Err(Fault::FileShort);
        }
        if !is_marked(file) {
            return Err(Fault::FileMark);
        }
        if u16::from_be_bytes([file[3], file[4]]) != VERSION {
            return Err(Fault::FileVersion);
        }
        Header::fields(file)
    }

    // Reads the fields in the order of their bytes. The first byte that is outside its values is refused.
    pub(crate) fn fields(bytes: &[u8]) -> Result<Header, Fault>
        requires { 13 ≤ length bytes.now }
        ensures { MatchResult result (λ h. (wrong_field (fields_at bytes.now) ≡ None) × (fields h ≡ fields_at bytes.now)) (λ e. refuse_field (wrong_field (fields_at bytes.now)) None ≡ Some (refusal e)) }
    {
        let family = Family::try_from(bytes[5])?;
        let base = field(bytes, 6, 2..=greatest_base(family))?;
        let n = field(bytes, 7, 2..=64)?;
        let k = field(bytes, 8, 1..=16)?;
        if k >= n {
            return Err(Fault::FileField { byte: 8 });
        }
        let t = field(bytes, 9, 1..=5)?;
        let form = FormKind::try_from(bytes[10])?;
        let count = u16::from_be_bytes([bytes[11], bytes[12]]);
        if !(1..=512).contains(&count) {
            return Err(Fault::FileField { byte: 11 });
        }
        Ok(Header {
            family,
            base,
            n,
            k,
            t,
            form,
            count,
        })
    }

    // How many bytes the check rows have.
    pub(crate) fn rows_size(&self) -> usize
        ensures value { result ≡ rows_size (fields self.now) }
        ensures bound { result < 65536 }
    {
        self.k as usize * (self.n - self.k) as usize
    }

    // How many bytes the table has.
    pub(crate) fn table_size(&self) -> usize
        ensures value { result ≡ table_size (fields self.now) }
        ensures bound { result < 16777216 }
    {
        match self.form {
            FormKind::Table => self.count as usize * self.n as usize,
            _ => 0,
        }
    }

    pub(crate) fn file_length(&self) -> usize
        ensures { result ≡ file_length (fields self.now) }
    {
        HEADER + self.form.own_size() + self.rows_size() + self.table_size()
    }
}

// The greatest b of residues, the greatest w of two-powers.
fn greatest_base(family: Family) -> u8
    ensures { result ≡ greatest_base (family_number family) }
{
    match family {
        Family::Residues => 16,
        Family::TwoPower => 4,
    }
}

// The value of a byte of the header, if it is in the range.
fn field(bytes: &[u8], byte: u8, range: RangeInclusive<u8>) -> Result<u8, Fault>
    requires place { byte < length bytes.now }
    requires fresh { range_inclusive_exhausted range ≡ false }
    ensures { let wrong = outside (range_inclusive_start range) (range_inclusive_end range) (slice_index bytes.now byte) in MatchResult result (λ value. (value ≡ slice_index bytes.now byte) × (wrong ≡ false)) (λ e. (e ≡ FileField byte) × (wrong ≡ true)) }
{
    let value = bytes[byte as usize];
    if !range.contains(&value) {
        return Err(Fault::FileField { byte });
    }
    Ok(value)
}

fn is_marked(file: &[u8]) -> bool
    requires { 13 ≤ length file.now }
    ensures { result ≡ marked file.now }
{
    file.starts_with(&MARK)
}

// The header of the scheme's file. Its fields can be outside their values.
pub(crate) fn head_bytes(scheme: &SchemeFile) -> [u8; HEADER]
    ensures bytes { result ≡ head_bytes (fields_of (contents scheme.now)) }
    ensures fields { fields_at result ≡ fields_of (contents scheme.now) }
{
    let version = VERSION.to_be_bytes();
    let count = scheme.count.to_be_bytes();
    [
        MARK[0],
        MARK[1],
        MARK[2],
        version[0],
        version[1],
        scheme.family.into(),
        scheme.base,
        scheme.n,
        scheme.k,
        scheme.t,
        scheme.form.kind().into(),
        count[0],
        count[1],
    ]
}
