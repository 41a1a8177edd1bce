//! Laws of the grammar. They have no code: each contract is a theorem about lines, streams and scripts.
ghost use Rattle.std.specs.Prelude.{◌≡◌, ◌++◌, ℕ, List};
ghost use Rattle.mc_proto.specs.{Grammar.Spells, Grammar.Spelt, Grammar.Reads, Lines.AreTokens, Lines.tokens, Reader.After, Reader.StandsForRest};
ghost use Rattle.mc_proto.specs.{Scripts.AreScripts};
ghost use Rattle.mc_proto.specs.{Scripts.ReadAlone, Scripts.with_next};
ghost use Rattle.mc_proto.specs.declared.{request.Limits.Limits, request.Request.Request, state.State.State};

/// A line is made of its tokens, the longest runs of bytes other than the space, and of no other tokens.
pub fn a_line_is_its_tokens()
    ensures made { (line : List ℕ) → AreTokens line (tokens line) }
    ensures one { (line : List ℕ) (ts : List (List ℕ)) → AreTokens line ts → ts ≡ tokens line }
{}

/// No spelling begins another one, and each spells one request. So it doesn't matter how a stream was cut into pieces.
pub fn no_spelling_begins_another()
    ensures { (limits : Limits) (a b x y : List ℕ) (q r : Request) → Spells limits a q → Spells limits b r → a ++ x ≡ b ++ y → (a ≡ b) × (x ≡ y) × (q ≡ r) }
{}

/// A stream reads in at most one way.
pub fn one_reading()
    ensures { (limits : Limits) (stream rest others : List ℕ) (qs rs : List Request) → Reads limits stream qs rest → Reads limits stream rs others
        → (qs ≡ rs) × (rest ≡ others) }
{}

/// Each stream reads in some way.
pub fn every_stream_reads()
    ensures { (limits : Limits) (stream : List ℕ) → (requests : List Request) × (rest : List ℕ) × Reads limits stream requests rest }
{}

/// If a reader is `After` a stream and its requests, the stream reads as these requests and a rest that the reader stands for.
pub fn after_is_reading()
    ensures { (limits : Limits) (state : State) (unread stream : List ℕ) (requests : List Request) → After limits state unread stream requests
        → ((rest : List ℕ) × Reads limits stream requests rest × StandsForRest limits state unread rest) }
{}

/// The requests of a stream begin with those of any beginning of it.
pub fn reading_goes_on()
    ensures { (limits : Limits) (came more rest other : List ℕ) (requests all : List Request) → Spelt limits came requests rest
        → Reads limits (came ++ more) all other
        → ((others : List Request) × (all ≡ requests ++ others)) }
{}

/// A stream is cut into scripts in at most one way.
pub fn one_splitting()
    ensures { (limits : Limits) (stream : List ℕ) (ss ts : List (List ℕ)) → AreScripts limits stream ss → AreScripts limits stream ts → ss ≡ ts }
{}

/// The scripts of a stream, each read on its own, have the requests of the whole stream, except the `Next` between two scripts.
pub fn scripts_read_alone()
    ensures { (limits : Limits) (stream : List ℕ) (ss : List (List ℕ)) → AreScripts limits stream ss
        → ((all : List (List Request)) × (rest : List ℕ) × ReadAlone limits ss all rest × Reads limits stream (with_next all) rest) }
{}
