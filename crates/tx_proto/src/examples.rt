//! What the definitions say of some requests and replies. Each function here does nothing: its contract
//! is computed from the definitions.

ghost use Rattle.std.specs.Prelude.{◌≡◌, ◌∷◌, ◌++◌, []};
ghost use lib.Chars.{codes};
ghost use Rattle.tx_model.specs.Frames.{frame, bye};
ghost use Rattle.tx_model.specs.Replies.{reply_bytes};
ghost use Rattle.tx_proto.specs.Requests.{request_in};
ghost use Rattle.tx_proto.specs.Written.{reply_in};
ghost use Rattle.tx_proto.specs.declared.replies.Reply.{Reply};

/// Frames, and the line that ends a session.
pub fn bytes_of_frames()
    ensures text { frame (request_in (record { budget = 5; text = codes "ab" })) ≡ codes "REGION 5 2" ++ 10 ∷ codes "ab" }
    ensures largest { frame (request_in (record { budget = 10000000; text = [] })) ≡ codes "REGION 10000000 0" ++ 10 ∷ [] }
    ensures bye { bye ≡ codes "BYE" ++ 10 ∷ [] }
{}

/// Replies of each kind.
pub fn bytes_of_replies()
    ensures done { reply_bytes (reply_in (Reply.Done (record { steps = 23; pages = 0; dvi = []; log = codes "yx" }))) ≡ codes "DONE 23 0 0 2" ++ 10 ∷ codes "yx" }
    ensures fail { reply_bytes (reply_in (Reply.Fail (record { steps = 1; pages = 0; dvi = []; log = [] }))) ≡ codes "FAIL 1 0 0 0" ++ 10 ∷ [] }
    ensures spent { reply_bytes (reply_in (Reply.Spent (record { steps = 10; pages = 1; dvi = codes "d"; log = codes "l" }))) ≡ codes "SPENT 10 1 1 1" ++ 10 ∷ codes "dl" }
    ensures memory { reply_bytes (reply_in Reply.Memory) ≡ codes "MEMORY 0 0 0 0" ++ 10 ∷ [] }
    ensures full { reply_bytes (reply_in Reply.Full) ≡ codes "FULL" ++ 10 ∷ [] }
    ensures bad { reply_bytes (reply_in (Reply.Bad 7)) ≡ codes "BAD 7" ++ 10 ∷ [] }
{}
