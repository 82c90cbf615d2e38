// The statements of a file in their places, and the movements of a statement in theirs. A statement is a part of the file, never a copy.
// A form and a file stay two parameters: any form goes with any bytes, so a struct of the two would promise nothing.
#![tactic(auto)]

ghost use Rattle.std.specs.Prelude.{◌≡◌, ◌∷◌, [], ◌≤◌, length, drop};
ghost use Rattle.zones.specs.Copy.{same_bytes};
ghost use Rattle.layouts.specs.Zone.{part};
ghost use Rattle.framing.proofs.Chunks.{whole_chunks};
ghost use Rattle.readers.specs.Places.{end_in, ends_after};
ghost use Rattle.readers.specs.Steps.{step_over};
ghost use Rattle.readers.specs.Answers.{PlacePart, StatementEnd, StatementPlace, StatementPart, MovementStep};

use framing::{Form, Reason, Refusal};
use records::RECORD;

// The first byte and the length of a statement in its file.
#[derive(Clone, Copy, PartialEq, Eq)]
pub struct Place {
    pub first: usize,
    pub len: usize,
}

impl Place {
    // The part of a file at this place. No bytes where the place does not lie in the file.
    #[tactic(auto, unfolding(crate::specs::Places::bytes_at))]
    pub fn part(self, file: &[u8]) -> &[u8]
        ensures { PlacePart self file.now result.now }
    {
        if file.len() < self.first {
            return &file[..0];
        }
        if file.len() - self.first < self.len {
            return &file[..0];
        }
        let end = self.first + self.len;
        &file[self.first..end]
    }
}

// A movement: the number of its 05, and the place after them.
#[derive(Clone, Copy, PartialEq, Eq)]
pub struct Step {
    pub complements: u64,
    pub next: usize,
}

// Whether the code of a record, with what stands after it, is 0 and a second byte.
fn is_code(piece: &[u8], second: u8) -> bool
    requires { 2 ≤ length piece.now }
    ensures { result ≡ same_bytes (48 ∷ second ∷ []) (part 1 2 piece.now) }
{
    (b'0' == piece[0]) & (second == piece[1])
}

// The end of the first 07 from a place on, among pieces of a record with its line end; the file's end where none is one.
fn closing_end(file: &[u8], width: usize, at: usize) -> usize
    requires { (2 ≤ width) × (at ≤ length file.now) }
    ensures { result ≡ end_in width (length file.now) at (whole_chunks width (drop at file.now)) }
{
    match file[at..]
        .chunks_exact(width)
        .position(|piece| is_code(piece, b'7'))
    {
        Some(i) => at + (i + 1) * width,
        None => file.len(),
    }
}

// The cursor: where the next statement begins, from the place of one.
pub fn statement_end(form: Form, file: &[u8], at: usize) -> usize
    ensures { StatementEnd form file.now at result }
{
    if 2 < form.line_end {
        return file.len();
    }
    if file.len() <= at {
        return file.len();
    }
    closing_end(file, RECORD + form.line_end as usize, at)
}

// The place after so many statements. `contents::after_movements` takes another step: the two loops share a counter alone, and one over a closure would be no plainer.
fn after_statements(form: Form, file: &[u8], skip: u64) -> usize
    ensures { result ≡ ends_after form file.now skip 0 }
{
    let mut at: usize = 0;
    for _ in 0..skip {
        at = statement_end(form, file, at);
    }
    at
}

// Where statement k stands. The whole file is judged first.
pub fn statement_place(form: Form, file: &[u8], k: u64) -> Result<Place, Refusal>
    ensures { StatementPlace form file.now k result }
{
    let counts = statements::check(form, file)?;
    if k == 0 {
        return Err(Reason::NoSuchStatement.at(0));
    }
    if counts.statements < k {
        return Err(Reason::NoSuchStatement.at(0));
    }
    let first = after_statements(form, file, k - 1);
    let end = statement_end(form, file, first);
    let len = end - first;
    Ok(Place { first, len })
}

// Statement k as a part of the file: itself a file of one statement. Empty on refusal.
pub fn statement(form: Form, file: &[u8], k: u64) -> &[u8]
    ensures { StatementPart form file.now k result.now }
{
    match statement_place(form, file, k) {
        Ok(place) => place.part(file),
        Err(_) => &file[..0],
    }
}

// The 05 from a place on, up to the first other record.
fn step_over(part: &[u8], width: usize, at: usize) -> Step
    requires { (2 ≤ width) × (at ≤ length part.now) }
    ensures { result ≡ step_over width 0 at (whole_chunks width (drop at part.now)) }
{
    let complements = part[at..]
        .chunks_exact(width)
        .take_while(|piece| is_code(piece, b'5'))
        .count();
    Step {
        complements: complements as u64,
        next: at + complements * width,
    }
}

// The movement at a place of a statement's part, where one stands there.
pub fn movement_step(part: &[u8], form: Form, at: usize) -> Option<Step>
    ensures { MovementStep part.now form at result }
{
    if 2 < form.line_end {
        return None;
    }
    if part.len() <= at {
        return None;
    }
    let width = RECORD + form.line_end as usize;
    if part.len() - at < width {
        return None;
    }
    let e = at + width;
    if !is_code(&part[at..e], b'4') {
        return None;
    }
    Some(step_over(part, width, e))
}
