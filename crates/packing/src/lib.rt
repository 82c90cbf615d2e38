// One 64-bit number as a whole answer, by `specs/Packing.antt`.
#![tactic(auto)]

ghost use Rattle.std.specs.Prelude.{◌≡◌};
ghost use Rattle.packing.specs.Packing.{Fits, pack as packOf};
ghost use Rattle.packing.specs.Answers.{Answered, Refuses, RefusalNumber};

use framing::Refusal;

// The weights of bits 20, 40 and 60. Below the first is one part of a number.
pub const BIT20: u64 = 1048576;

const BIT40: u64 = BIT20 * BIT20;

const BIT60: u64 = BIT20 * BIT40;

// The kinds, bits 60 to 63: numbers, since a caller in C reads them there.
const ANSWER: u64 = 0;

const REFUSAL: u64 = 1;

// Bits 0 to 19 a, 20 to 39 b, 40 to 59 c, 60 to 63 the kind.
fn pack(kind: u64, a: u64, b: u64, c: u64) -> u64
    requires { Fits kind a b c }
    ensures { result ≡ packOf kind a b c }
{
    a + BIT20 * b + BIT40 * c + BIT60 * kind
}

// An answer of up to three numbers, each below 1,048,576; of a larger one the low 20 bits.
#[tactic(auto, unfolding(crate::specs::Packing::answered_of))]
pub fn answered(a: u64, b: u64, c: u64) -> u64
    ensures { Answered a b c result }
{
    pack(ANSWER, a % BIT20, b % BIT20, c % BIT20)
}

// A refusal's number and record.
#[tactic(auto, unfolding(crate::specs::Packing::refused_of))]
pub fn refused(number: u64, record: u64) -> u64
    ensures { Refuses number «record» result }
{
    pack(REFUSAL, record % BIT20, number % BIT20, 0)
}

// A refusal of the list: its reason's number and its record.
pub fn refusal(refusal: Refusal) -> u64
    ensures { RefusalNumber refusal result }
{
    refused(refusal.reason.number(), refusal.record)
}
