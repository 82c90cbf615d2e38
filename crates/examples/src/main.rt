// The worked examples of the paper, marked and unmarked, run by the code and held to `stdout`.
#![tactic(auto)]

use cases::Text;
use framing::Reason;
use std::io;

fn amount(rt: &impl Print, text: &str) -> io::Result<()> {
    match amounts::read(text.as_bytes()) {
        Some(v) => println!(rt; "{text} is {v}"),
        None => println!(rt; "{text} refusal {}", Reason::WrongZone.number()),
    }
}

fn date(rt: &impl Print, text: &str) -> io::Result<()> {
    match dates::read(text.as_bytes()) {
        Some(k) => println!(rt; "{text} is {k}"),
        None => println!(rt; "{text} refusal {}", Reason::NoSuchDate.number()),
    }
}

fn code(rt: &impl Print, text: &[u8; 2]) -> io::Result<()> {
    println!(rt; "{} is {}", Text(text), codes::number(text[0], text[1]))
}

fn main(rt: HostRuntime) -> io::Result<()> {
    amount(&rt, "0000000010000{")?;
    amount(&rt, "0000000000421P")?;
    amount(&rt, "0000000000000{")?;
    amount(&rt, "0000000000000}")?;
    amount(&rt, "9999999999999R")?;
    amount(&rt, "00000000000005")?;
    date(&rt, "290224")?;
    date(&rt, "290225")?;
    date(&rt, "290200")?;
    date(&rt, "010180")?;
    code(&rt, b"28")?;
    code(&rt, b"A3")?;
    code(&rt, b"01")?;
    code(&rt, b"16")?;
    code(&rt, b"19")
}
