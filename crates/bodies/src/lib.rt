// A statement as the journal keeps it: its records as the writer would write them, without line ends. Two statements are compared, and one is copied, record by record.
#![tactic(auto)]

ghost use Rattle.std.specs.Prelude.{◌≡◌, length};
ghost use Rattle.records.specs.July.{record_size, has_debit_zero, no_debit_zero};
ghost use Rattle.framing.specs.Files.{pieces_of, plain};
ghost use Rattle.bodies.specs.Bodies.{kept, same_record};
ghost use Rattle.bodies.specs.Answers.{IsSingle, SameRecords, ClosingOf, PutBody};

use framing::{Form, PLAIN};
use records::RECORD;

// Whether a debit zero stands in 91-104 of a record that is no 05. Most records are told by their last digit alone.
fn has_debit_zero(r: &[u8; RECORD]) -> bool
    ensures { result ≡ has_debit_zero r.now }
{
    if r[103] != b'}' {
        return false;
    }
    !zones::same(b"05", &r[0..2]) & zones::same(&r[90..104], b"0000000000000}")
}

// Whether no record of a body has a debit zero. Here and below each piece has a record's bytes: the `unwrap` is proved, and looks at nothing.
fn no_debit_zero(body: &[u8]) -> bool
    ensures { result ≡ no_debit_zero (pieces_of record_size plain body.now) }
{
    body.chunks_exact(RECORD)
        .all(|r| !has_debit_zero(r.first_chunk().unwrap()))
}

// Whether a body is accepted alone, is exactly one statement, and has no debit zero.
pub fn is_single(body: &[u8]) -> bool
    ensures { IsSingle body.now result }
{
    match statements::check(PLAIN, body) {
        Ok(counts) => (counts.statements == 1) & no_debit_zero(body),
        Err(_) => false,
    }
}

// A record as it is kept.
fn put_record(dst: &mut [u8], r: &[u8; RECORD])
    requires { length dst.old ≡ record_size }
    ensures { dst.new ≡ kept r.now }
{
    zones::put(dst, r);
    if has_debit_zero(r) {
        dst[103] = b'{';
    }
}

// Whether two records are kept alike. Records that differ are kept alike only where one has a debit zero.
fn same_record(a: &[u8; RECORD], b: &[u8; RECORD]) -> bool
    ensures { result ≡ same_record a.now b.now }
{
    if zones::same(a, b) {
        return true;
    }
    if !has_debit_zero(a) & !has_debit_zero(b) {
        return false;
    }
    let mut x = [0u8; RECORD];
    let mut y = [0u8; RECORD];
    put_record(&mut x, a);
    put_record(&mut y, b);
    zones::same(&x, &y)
}

// Whether two parts hold the same records. Line ends do not count, nor does the sign of a zero.
pub fn same_records(f: Form, a: &[u8], g: Form, b: &[u8]) -> bool
    ensures { SameRecords f a.now g b.now result }
{
    if 2 < f.line_end {
        return false;
    }
    if 2 < g.line_end {
        return false;
    }
    let rows = a.chunks_exact(RECORD + f.line_end as usize);
    let others = b.chunks_exact(RECORD + g.line_end as usize);
    if rows.len() != others.len() {
        return false;
    }
    rows.zip(others).all(|(x, y)| same_record(x.first_chunk().unwrap(), y.first_chunk().unwrap()))
}

// The last record of a part: the 07 of a statement.
pub fn closing_of(form: Form, part: &[u8]) -> &[u8]
    ensures { ClosingOf form part.now result.now }
{
    if 2 < form.line_end {
        return &part[..0];
    }
    let width = RECORD + form.line_end as usize;
    if part.len() < width {
        return &part[..0];
    }
    contents::record_at(part, part.len() - width)
}

// The body of a part into the first lines of a buffer. Nothing is written where it is too short.
pub fn put_body(dst: &mut [u8], form: Form, part: &[u8])
    ensures { PutBody form part.now dst.old dst.new }
{
    if 2 < form.line_end {
        return;
    }
    let pieces = part.chunks_exact(RECORD + form.line_end as usize);
    if dst.len() / RECORD < pieces.len() {
        return;
    }
    // By index: the kit's proofs know no byte written through `chunks_exact_mut`.
    for (i, piece) in pieces.enumerate() {
        let a = RECORD * i;
        put_record(&mut dst[a..a + RECORD], piece.first_chunk().unwrap());
    }
}
