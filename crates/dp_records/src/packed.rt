ghost use Rattle.std.specs.Prelude.{◌≡◌, [], ◌∷◌, ◌++◌, ◌+◌, ◌<◌, ◌≤◌, length, take, drop, slice_index_or};
ghost use Rattle.std.specs.Prelude.{IfOk, IfSome, OnOk, OnErr};
ghost use Rattle.csv.specs.Records.{cut_from, prev, Rising};

use dp_count::NoMemory;
use dp_domain::{Text, Texts};
use std::alloc::Global;
use std::marker::Model;

/// Texts in order. Their bytes stand one text after another in one buffer, and their ends in another, so an empty text
/// takes an end alone. All texts together have fewer than 2^32 bytes.
#[derive(Debug, Drop)]
pub struct Packed {
    bytes: Vec<u8>,
    ends: Vec<u32>,
}

impl Model for Packed {
    ghost use Rattle.std.specs.Prelude.{ℕ, List};
    ghost use Rattle.csv.specs.Records.{cut_from};
    ghost use Rattle.dp_records.specs.PackedTexts.{IsPacked};

    ghost Value = { List (List ℕ) };

    ghost view = { λ p. cut_from 0 p.ends.items p.bytes.items };

    ghost invariant = { λ p. IsPacked p.ends.items p.bytes.items };
}

impl Packed {
    /// No texts, which take no memory.
    pub fn new(alloc: Global) -> Packed
        ensures { result ≡ [] }
    {
        Packed {
            bytes: Vec::new(alloc),
            ends: Vec::new(alloc),
        }
    }

    /// How many texts there are.
    pub fn len(&self) -> u64
        ensures { result ≡ length self.now }
    {
        self.ends.len() as u64
    }

    /// The text at place `k`, from 0.
    pub fn at(&self, k: u64) -> &[u8]
        requires { k < length self.now }
        ensures { result.now ≡ slice_index_or self.now k [] }
    {
        text_at(self.ends.as_slice(), self.bytes.as_slice(), k as usize)
    }

    /// Appends a text. `NoMemory` comes also where the texts would have 2^32 bytes or more; they are then unchanged.
    pub fn push(&mut self, text: &[u8]) -> Result<(), NoMemory>
        ensures ok { OnOk result (self.new ≡ self.old ++ text.now ∷ []) }
        ensures err { OnErr result (self.new ≡ self.old) }
    {
        let Some(end) = end_after(self.bytes.len(), text.len()) else {
            return Err(NoMemory);
        };
        self.ends.reserve(1)?;
        self.bytes.extend_from_slice(text)?;
        self.ends.push(end).unwrap();
        Ok(())
    }

    /// As many texts as `count` from place `from` on, in memory of their own.
    pub fn texts(&self, alloc: Global, from: u64, count: u32) -> Result<Texts, NoMemory>
        requires { from + count ≤ length self.now }
        ensures { IfOk result (λ texts. texts ≡ take count (drop from self.now)) }
    {
        let _len = self.len();
        let mut texts = Vec::with_capacity(alloc, count as usize)?;
        for k in 0..count {
            let text = Vec::from_slice(alloc, self.at(from + u64::from(k)))?;
            texts.push(Text::from_vec(text))?;
        }
        Ok(Texts::from_vec(texts))
    }
}

/// The text at place `k` of texts that end at these places.
fn text_at<'a>(ends: &[u32], bytes: &'a [u8], k: usize) -> &'a [u8]
    requires within { k < length ends.now }
    requires rising { Rising 0 ends.now (length bytes.now) }
    ensures { result.now ≡ slice_index_or (cut_from 0 ends.now bytes.now) k [] }
{
    let start = start_of(ends, k);
    &bytes[start as usize..ends[k] as usize]
}

/// Where the text at place `k` starts.
fn start_of(ends: &[u32], k: usize) -> u32
    requires { k < length ends.now }
    ensures { result ≡ prev 0 ends.now k }
{
    if k == 0 { 0 } else { ends[k - 1] }
}

/// Where a text of so many bytes ends that starts behind so many, if 32 bits hold it.
fn end_after(start: usize, bytes: usize) -> Option<u32>
    ensures { IfSome result (λ end. end ≡ start + bytes) }
{
    u32::try_from(start.checked_add(bytes)?).ok()
}

#[cfg(test)]
mod tests {
    use super::*;
    use std::test::Fail;

    #[test]
    fn an_empty_text_takes_an_end_alone(rt: HostRuntime) -> Result<(), Fail> {
        let mut texts = Packed::new(rt.alloc());
        for text in [b"ab".as_slice(), b"", b"c", b""] {
            assert_eq!(rt; texts.push(text), Ok(()));
        }
        assert_eq!(rt; texts.bytes.as_slice(), b"abc".as_slice());
        assert_eq!(rt; texts.ends.as_slice(), [2, 2, 3, 3].as_slice());
        assert_eq!(rt; texts.len(), 4);
        assert_eq!(rt; texts.at(2), b"c".as_slice());
        assert!(rt; texts.at(3).is_empty());
        let middle = texts.texts(rt.alloc(), 1, 2)?;
        assert_eq!(rt; middle.len(), 2);
        assert!(rt; middle.at(0).is_empty());
        assert_eq!(rt; middle.at(1).as_slice(), b"c".as_slice());
        Ok(())
    }
}
