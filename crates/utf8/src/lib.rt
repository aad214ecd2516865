// Whether bytes are UTF-8 by RFC 3629: no overlong forms, no surrogates, nothing above U+10FFFF.
#![tactic(auto)]

ghost use Rattle.std.specs.Prelude.{◌≡◌, ◌↔◌, IsTrue};
ghost use Rattle.utf8.specs.Grammar.{Utf8Octets};
ghost use Rattle.utf8.specs.Machine.{Scanned, after, lead, pending};

// What a character still wants: `more` bytes, of which the next is within `low` to `high`.
#[derive(Clone, Copy)]
struct Pending {
    more: u8,
    low: u8,
    high: u8,
}

fn tails(more: u8) -> Pending
    ensures { result ≡ pending more 128 191 }
{
    Pending {
        more,
        low: 0x80,
        high: 0xbf,
    }
}

// What a character wants after its first byte, if a character may begin with that byte.
fn first(b: u8) -> Option<Pending>
    ensures { result ≡ lead b }
{
    match b {
        0..=0x7f => Some(tails(0)),
        0xc2..=0xdf => Some(tails(1)),
        0xe0 => Some(Pending {
            more: 2,
            low: 0xa0,
            high: 0xbf,
        }),
        0xe1..=0xec => Some(tails(2)),
        0xed => Some(Pending {
            more: 2,
            low: 0x80,
            high: 0x9f,
        }),
        0xee..=0xef => Some(tails(2)),
        0xf0 => Some(Pending {
            more: 3,
            low: 0x90,
            high: 0xbf,
        }),
        0xf1..=0xf3 => Some(tails(3)),
        0xf4 => Some(Pending {
            more: 3,
            low: 0x80,
            high: 0x8f,
        }),
        _ => None,
    }
}

fn step(state: Pending, b: u8) -> Option<Pending>
    ensures { result ≡ after state b }
{
    if state.more == 0 {
        return first(b);
    }
    if b < state.low || b > state.high {
        return None;
    }
    Some(tails(state.more - 1))
}

// Goes through the bytes, and says what is still wanted behind them: none where no text begins so.
#[tactic(auto, using(std::proofs::lemmas::List::at_drop_more))]
fn scan(bytes: &[u8]) -> Option<Pending>
    ensures { Scanned bytes.now result }
{
    let mut state = tails(0);
    for b in bytes {
        state = step(state, *b)?;
    }
    Some(state)
}

// Text is whole where nothing more is wanted.
pub fn is_utf8(bytes: &[u8]) -> bool
    ensures { IsTrue result ↔ Utf8Octets bytes.now }
{
    scan(bytes).is_some_and(|state| state.more == 0)
}
