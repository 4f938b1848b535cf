//! The sealer over HMAC.
ghost use Rattle.std.specs.Prelude.{◌≡◌, ◌++◌, ◌+◌, ◌≤◌, ℕ, List, IsTrue, ◌↔◌, length, vec_len, vec_capacity};
ghost use Rattle.kb_seal.specs.Hmac.{AreStatesOf};
ghost use Rattle.kb_seal.specs.Sealing.{tag_of, pad_at, masked};

use crate::sealer::{Key, OpenFault, Sealer};
use crate::states::{KeyStates, code_of, states_of};
use kb_edge::Memory;
use std::alloc::Global;

/// Seals by HMAC: a tag of the text, and the text under a pad that the key and the tag fix.
pub struct HmacSealer;

// Adds a text with the pad laid over it.
fn mask_onto(out: &mut Vec<u8>, states: &KeyStates, tag: &Key, text: &[u8])
    requires { vec_len out.old + length text.now ≤ vec_capacity out.old }
    ensures { (key : List ℕ) → AreStatesOf key states.now → out.new.items ≡ out.old.items ++ masked (pad_at key tag.now) 0 text.now }
{
    let mut block = [0u8; 32];
    'bytes: for i in 0..text.len() {
        if i % 32 == 0 {
            let number = (i / 32 % 0x1_0000_0000) as u32;
            block = code_of(states, 2, tag, &number.to_be_bytes());
        }
        out.push_reserved(text[i] ^ block[i % 32]);
    }
}

fn tag_of(states: &KeyStates, plain: &[u8]) -> Key
    ensures { (key : List ℕ) → AreStatesOf key states.now → result ≡ tag_of key plain.now }
{
    code_of(states, 1, plain, &[])
}

fn is_same(a: &Key, b: &Key) -> bool
    ensures { IsTrue result ↔ (a.now ≡ b.now) }
{
    *a == *b
}

impl Sealer for HmacSealer {
    ghost use Rattle.kb_seal.specs.Sealing.{seal_by_hmac, sign_by_hmac};
    ghost use Rattle.kb_seal.specs.Laws.{seal-one_plain, length-seal};

    ghost sealed = { seal_by_hmac };

    ghost signed = { sign_by_hmac };

    fn seal(alloc: Global, key: &Key, plain: &[u8]) -> Result<Vec<u8>, Memory> {
        let mut out = Vec::with_capacity(alloc, 32 + plain.len())?;
        let states = states_of(key);
        let tag = tag_of(&states, plain);
        out.extend_from_slice(&tag)?;
        mask_onto(&mut out, &states, &tag, plain);
        Ok(out)
    }

    fn open(alloc: Global, key: &Key, text: &[u8]) -> Result<Vec<u8>, OpenFault> {
        if text.len() < 32 {
            return Err(OpenFault::NotSealed);
        }
        let (front, back) = text.split_at(32);
        let mut plain = match Vec::with_capacity(alloc, back.len()) {
            Ok(plain) => plain,
            Err(_) => return Err(OpenFault::Memory),
        };
        let mut tag = [0u8; 32];
        tag.copy_from_slice(front);
        let states = states_of(key);
        mask_onto(&mut plain, &states, &tag, back);
        let again = tag_of(&states, plain.as_slice());
        if is_same(&again, &tag) {
            Ok(plain)
        } else {
            Err(OpenFault::NotSealed)
        }
    }

    fn sign(key: &Key, bytes: &[u8]) -> Key {
        code_of(&states_of(key), 3, bytes, &[])
    }

    fn verify(key: &Key, bytes: &[u8], mark: &Key) -> bool {
        is_same(mark, &Self::sign(key, bytes))
    }

    ghost one_plain = { seal-one_plain };

    ghost longer = { length-seal };
}
