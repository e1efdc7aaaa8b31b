// Scheme files: the bytes in which a scheme is kept.
// Here live the reader, the writer and what they refuse. Whether check rows hold symbols, whether a table holds
// permutations and whether the scheme stands its trial is not asked here.

#![tactic(auto)]

ghost use Rattle.std.specs.Prelude.{◌≡◌, ◌<◌, true, ◌++◌, length, drop, Some, None, MatchResult};
ghost use Rattle.faults.specs.Refusal.{refusal};
ghost use Rattle.files.specs.Layout.{value_bytes, table_bytes, bytes_of, fields_at, value_size, file_length, contents_of};
ghost use Rattle.files.specs.Contents.{form_number, fields_of};
ghost use Rattle.files.specs.Limits.{head_refusal, file_refusal, parts_fit, write_refusal};
ghost use Rattle.files.specs.Held.{family_number, NamesFamily, list_of, contents};
ghost use Rattle.files.specs.Header.{kind_number, fields};
ghost use Rattle.files.specs.Trips.{Written, WrittenIsRead, ReadIsWritten};

use faults::Fault;
use header::{FormKind, HEADER, Header, head_bytes};

mod header;

// The kind of the symbols: residues modulo b, or two-powers of width w.
#[derive(Clone, Copy, PartialEq, Eq, Debug)]
pub enum Family {
    Residues,
    TwoPower,
}

impl From<Family> for u8 {
    ghost from_gives = { λ family number. number ≡ family_number family };

    fn from(family: Family) -> u8 {
        match family {
            Family::Residues => 0,
            Family::TwoPower => 1,
        }
    }
}

// Byte 5 of a file names the family.
impl TryFrom<u8> for Family {
    type Error = Fault;

    ghost try_from_gives = { NamesFamily };

    fn try_from(number: u8) -> Result<Self, Fault> {
        match number {
            0 => Ok(Family::Residues),
            1 => Ok(Family::TwoPower),
            _ => Err(Fault::FileField { byte: 5 }),
        }
    }
}

// How the permutations are listed.
#[derive(Clone, Copy)]
pub enum Form<'a> {
    // A row of n targets for each permutation.
    Table(&'a [u8]),
    Shifts { step: u8 },
    // Powers of a factor over shifts.
    Multiplier { step: u8, factor: u8, powers: u8 },
}

impl<'a> Form<'a> {
    fn kind(&self) -> FormKind
        ensures { kind_number result ≡ form_number (list_of self.now) }
    {
        match self {
            Form::Table(_) => FormKind::Table,
            Form::Shifts { .. } => FormKind::Shifts,
            Form::Multiplier { .. } => FormKind::Multiplier,
        }
    }

    // The table's bytes, none in the other forms.
    fn table(&self) -> &'a [u8]
        ensures { result.now ≡ table_bytes (list_of self.now) }
    {
        match *self {
            Form::Table(table) => table,
            _ => &[],
        }
    }
}

// What a scheme file says. The check rows and the table are parts of the file.
#[derive(Clone, Copy)]
pub struct SchemeFile<'a> {
    pub family: Family,
    // b of residues, w of two-powers.
    pub base: u8,
    // Places of a codeword, information places, errors to be corrected.
    pub n: u8,
    pub k: u8,
    pub t: u8,
    // The count of the table's rows or of the shifts.
    pub count: u16,
    // n - k symbols for each of the k information places.
    pub rows: &'a [u8],
    pub form: Form<'a>,
}

// A form of this kind, with its own bytes and its table. Only a table's form has one.
fn read_form<'a>(kind: FormKind, own: &[u8], table: &'a [u8]) -> Form<'a>
    requires own { length own.now ≡ value_size (kind_number kind) }
    requires table { 0 < kind_number kind → length table.now ≡ 0 }
    ensures number { form_number (list_of result) ≡ kind_number kind }
    ensures own { value_bytes (list_of result) ≡ own.now }
    ensures table { table_bytes (list_of result) ≡ table.now }
{
    match kind {
        FormKind::Table => Form::Table(table),
        FormKind::Shifts => Form::Shifts { step: own[0] },
        FormKind::Multiplier => Form::Multiplier {
            step: own[0],
            factor: own[1],
            powers: own[2],
        },
    }
}

// The parts of a file whose header and length stand.
#[tactic(auto, using(std::proofs::lemmas::Slice::between_to_end))]
fn split_parts<'a>(header: &Header, file: &'a [u8]) -> SchemeFile<'a>
    requires header { head_refusal file.now ≡ None }
    requires read { fields header.now ≡ fields_at file.now }
    requires whole { length file.now ≡ file_length (fields_at file.now) }
    ensures accepted { file_refusal file.now ≡ None }
    ensures fields { fields_of (contents result) ≡ fields_at file.now }
    ensures tail { value_bytes (list_of result.form) ++ (result.rows.now ++ table_bytes (list_of result.form)) ≡ drop 13 file.now }
    ensures fit { parts_fit (contents result) ≡ true }
{
    let (own, rest) = file[HEADER..].split_at(header.form.own_size());
    let (rows, table) = rest.split_at(header.rows_size());
    SchemeFile {
        family: header.family,
        base: header.base,
        n: header.n,
        k: header.k,
        t: header.t,
        count: header.count,
        rows,
        form: read_form(header.form, own, table),
    }
}

// Reads a scheme file, or says what is wrong with it.
pub fn read(file: &[u8]) -> Result<SchemeFile<'_>, Fault>
    ensures { MatchResult result (λ s. (file_refusal file.now ≡ None) × (contents s ≡ contents_of file.now) × (bytes_of (contents s) ≡ file.now)) (λ e. file_refusal file.now ≡ Some (refusal e)) }
{
    let header = Header::read(file)?;
    if file.len() != header.file_length() {
        return Err(Fault::FileLength);
    }
    Ok(split_parts(&header, file))
}

// Whether check rows and table have the sizes that the header gives.
fn parts_fit(scheme: &SchemeFile, header: &Header) -> bool
    requires { fields header.now ≡ fields_of (contents scheme.now) }
    ensures { result ≡ parts_fit (contents scheme.now) }
{
    scheme.rows.len() == header.rows_size() && scheme.form.table().len() == header.table_size()
}

// Fills the output with the bytes of the file.
fn write_parts(scheme: &SchemeFile, out: &mut [u8])
    requires { length out.old ≡ length (bytes_of (contents scheme.now)) }
    ensures { out.new ≡ bytes_of (contents scheme.now) }
{
    let (head, rest) = out.split_at_mut(HEADER);
    head.copy_from_slice(&head_bytes(scheme));
    let (own, rest) = rest.split_at_mut(scheme.form.kind().own_size());
    match scheme.form {
        Form::Table(_) => {}
        Form::Shifts { step } => own.copy_from_slice(&[step]),
        Form::Multiplier {
            step,
            factor,
            powers,
        } => own.copy_from_slice(&[step, factor, powers]),
    }
    let (rows, table) = rest.split_at_mut(scheme.rows.len());
    rows.copy_from_slice(scheme.rows);
    table.copy_from_slice(scheme.form.table());
}

// Writes a scheme file over the whole output. A refusal leaves the output as it was.
// The fields are those that a reader of the header would accept.
pub fn write(scheme: &SchemeFile, out: &mut [u8]) -> Result<(), Fault>
    ensures { MatchResult result (λ _. (write_refusal (contents scheme.now) (length out.old) ≡ None) × Written (contents scheme.now) out.new) (λ e. (write_refusal (contents scheme.now) (length out.old) ≡ Some (refusal e)) × (out.new ≡ out.old)) }
{
    let header = Header::fields(&head_bytes(scheme))?;
    if !parts_fit(scheme, &header) || out.len() != header.file_length() {
        return Err(Fault::FileLength);
    }
    write_parts(scheme, out);
    Ok(())
}

// What is written is read again: contents that are not refused make a file that is accepted and says the same.
pub fn written_is_read()
    ensures { WrittenIsRead }
{}

// What is read is written again: an accepted file is the one that its contents make.
pub fn read_is_written()
    ensures { ReadIsWritten }
{}
