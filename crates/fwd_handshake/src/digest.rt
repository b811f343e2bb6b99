//! The digest by which a peer shows that it has the key.

ghost use Rattle.std.specs.Prelude.{◌≡◌, ◌++◌, IfOk};
ghost use Rattle.sha2.specs.Sha512.{sha512};
ghost use Rattle.fwd_handshake.specs.Digest.{key_digest};

use crate::Ring;
use fwd_base::{Bytes, Memory};
use sha2::{Digest, Sha512};
use std::alloc::Global;

/// Returns SHA-512 of a salt, a host, a nonce and a key, one after another.
fn sha512_of(salt: &[u8], host: &[u8], nonce: &[u8], key: &[u8]) -> [u8; 64]
    ensures { result ≡ sha512 (((salt.now ++ host.now) ++ nonce.now) ++ key.now) }
{
    let mut hasher = Sha512::new();
    hasher.update(salt);
    hasher.update(host);
    hasher.update(nonce);
    hasher.update(key);
    hasher.finalize()
}

/// Returns the digest of a salt, a host, a nonce and the key of the ring, in lower-case hex.
#[tactic(auto, using(crate::proofs::Parts::digest_of_parts))]
pub fn key_digest(
    alloc: Global,
    ring: &Ring,
    salt: &[u8],
    host: &[u8],
    nonce: &[u8],
) -> Result<Bytes, Memory>
    ensures { IfOk result (λ digest. digest ≡ key_digest ring.now.key salt.now host.now nonce.now) }
{
    let digest = sha512_of(salt, host, nonce, ring.key.as_slice());
    let text = hex::encode(alloc, digest.as_slice())?;
    Ok(Bytes::from_vec(text.into_bytes()))
}
