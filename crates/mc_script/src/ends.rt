//! The trait `Ends`: where a script's bytes come from, and where its texts go.
ghost use Rattle.std.specs.Prelude.{◌≡◌, ◌++◌, ◌<◌, ℕ, List, [], IfErr, IfOk, OnOk, OnErr, MatchOption};
ghost use Rattle.mc_proto.specs.Text.{IsBeginning};
ghost use Rattle.mc_script.specs.Source.{CountsRead};

use crate::source::{Source, SourceFault};
use mc_proto::{ReplyText, Sink, SinkFault};

/// Where a script's bytes come from, and where its texts go. Contracts see which bytes came from one state to a later one (`gave`),
/// whether the end was reached, so that no more can come (`ended`), and the bytes taken.
/// They count failed reads and writes, and `over`, which stays while bytes come.
/// `may_ask` says when the next piece may be asked for.
pub trait Ends: Drop {
    ghost gave: { Self → Self → List ℕ → Type 0 };

    ghost ended: { Self → Type 0 };

    ghost taken: { Self → List ℕ };

    ghost reads: { Self → ℕ };

    ghost writes: { Self → ℕ };

    ghost over: { Self → ℕ };

    ghost may_ask: { Self → Type 0 };

    /// Returns the next bytes, or `None` at the end. After a fault no bytes came. `Failed` counts as a failed read, `NoMemory` doesn't.
    fn piece(&mut self) -> Result<Option<Vec<u8>>, SourceFault>
        requires { may_ask self.old }
        ensures ok { IfOk result (λ o. MatchOption o (gave self.old self.new [] × ended self.new)
            (λ v. gave self.old self.new v.items × (over self.new ≡ over self.old))) }
        ensures fine { OnOk result (reads self.new ≡ reads self.old) }
        ensures err { IfErr result (λ fault. CountsRead fault (reads self.old) (reads self.new) × gave self.old self.new []) }
        ensures taken { taken self.new ≡ taken self.old }
        ensures writes { writes self.new ≡ writes self.old };

    /// Whether a value may keep the piece that it came in, which saves its copy. If not, no piece outlives its requests.
    fn keeps_pieces(&self) -> bool;

    /// Takes a whole text, and leaves it empty. A fault counts as a failed write: then just a beginning of the text was taken.
    fn put_whole(&mut self, text: &mut ReplyText) -> Result<(), SinkFault>
        ensures ok { OnOk result ((taken self.new ≡ taken self.old ++ text.old.items) × (text.new.items ≡ [])) }
        ensures fine { OnOk result (writes self.new ≡ writes self.old) }
        ensures err { OnErr result ((writes self.old < writes self.new) × IsBeginning (taken self.old) (taken self.new) text.old.items) }
        ensures gave { gave self.old self.new [] }
        ensures reads { reads self.new ≡ reads self.old }
        ensures over { over self.new ≡ over self.old };

    // From a state to itself no bytes came.
    ghost stays: { (e : Self) → gave e e [] };

    // What came from one state to a second, and then to a third, came from the first to the third.
    ghost goes_on: { (first second third : Self) (came more : List ℕ) → gave first second came → gave second third more → gave first third (came ++ more) };
}

/// A source and a sink that are independent of each other: the source may be asked at any time.
impl<S: Source, K: Sink> Ends for (S, K) {
    ghost use Rattle.std.proofs.Common.{refl, ◌∙◌, ap, sym, append_assoc};

    ghost gave = { λ first second came. S.coming first.0 ≡ came ++ S.coming second.0 };

    ghost ended = { λ e. S.coming e.0 ≡ [] };

    ghost taken = { λ e. K.taken e.1 };

    ghost reads = { λ e. S.failures e.0 };

    ghost writes = { λ e. K.failures e.1 };

    ghost over = { λ e. 0 };

    ghost may_ask = { λ e. Unit {0} };

    fn piece(&mut self) -> Result<Option<Vec<u8>>, SourceFault> {
        self.0.piece()
    }

    fn keeps_pieces(&self) -> bool {
        true
    }

    fn put_whole(&mut self, text: &mut ReplyText) -> Result<(), SinkFault> {
        self.1.put_whole(text)
    }

    ghost stays = { λ e. refl };

    ghost goes_on = { λ first second third came more one two. one ∙ ap (λ (rest : List ℕ). came ++ rest) two
        ∙ sym (append_assoc came more (S.coming third.0)) };
}
