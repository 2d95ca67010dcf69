// What the door does alike with the record of either side.
#![tactic(auto, unfolding(crate::specs::Export::sized, crate::specs::Export::kept_bytes, words::specs::Choice::choose))]

ghost use Rattle.std.specs.Prelude.{ℕ, List, ◌≡◌, true, false, MatchOption};
ghost use Rattle.words.specs.Place.{placed};
ghost use Rattle.client_bytes.specs.Layout.{client_in, bytes_of_client};
ghost use Rattle.server_bytes.specs.Layout.{server_in, bytes_of_server};
ghost use Rattle.morphelai.specs.Export.{sized, kept_bytes};
ghost use Rattle.morphelai.specs.Result.{result_of};

use crate::result;
use answers::Answer;
use calls::Outcome;
use client::Client;
use server::Server;

// The record of a side, which bytes stand for.
pub trait Record: Copy {
    ghost record_in: { List ℕ → Self };

    ghost bytes_of: { Self → List ℕ };

    fn decode(bytes: &[u8]) -> Self
        ensures { result ≡ record_in bytes.now };

    fn encode(self, bytes: &mut [u8])
        ensures { bytes.new ≡ placed 0 (bytes_of self) bytes.old };
}

impl Record for Client {
    ghost record_in = { client_in };

    ghost bytes_of = { bytes_of_client };

    fn decode(bytes: &[u8]) -> Client {
        client_bytes::decode(bytes)
    }

    fn encode(self, bytes: &mut [u8]) {
        client_bytes::encode(self, bytes);
    }
}

impl Record for Server {
    ghost record_in = { server_in };

    ghost bytes_of = { bytes_of_server };

    fn decode(bytes: &[u8]) -> Server {
        server_bytes::decode(bytes)
    }

    fn encode(self, bytes: &mut [u8]) {
        server_bytes::encode(self, bytes);
    }
}

// The record that is lent, where it has its length. Inlined as `keep` is, so that no record is copied.
#[inline]
pub fn lent<R: Record>(bytes: &[u8]) -> Option<R>
    ensures { MatchOption result (sized bytes.now ≡ false)
        (λ r. (sized bytes.now ≡ true) × (r ≡ R.record_in bytes.now)) }
{
    if bytes.len() != record_bytes::SIZE {
        return None;
    }
    Some(R::decode(bytes))
}

// The bytes of the next record, where the answer is 0.
#[inline]
pub fn keep<R: Record>(answer: Answer, next: R, bytes: &mut [u8])
    ensures { bytes.new ≡ kept_bytes answer (R.bytes_of next) bytes.old }
{
    if answer.is_ok() {
        next.encode(bytes);
    }
}

// What an event gives back, and the bytes of the next record where the answer is 0.
#[inline]
pub fn given<R: Record>(o: Outcome<R>, bytes: &mut [u8]) -> u64
    ensures told { result ≡ result_of o.answer o.notice o.sent }
    ensures kept { bytes.new ≡ kept_bytes o.answer (R.bytes_of o.machine) bytes.old }
{
    keep(o.answer, o.machine, bytes);
    result::result(o.answer, o.notice, o.sent)
}
