//! Laws of a talk. The body of each is empty: its contract is the law.

ghost use Rattle.std.specs.Prelude.{◌≡◌, ◌++◌, List, Option, ℕ};
ghost use Rattle.bd_value.specs.{Tree.Doc};
ghost use Rattle.bd_cursor_model.specs.{Answer.answer, Answer.rest};
ghost use Rattle.bd_cursor_model.specs.Session.{PositionedToken, Query, State, find_call, resume_call};
ghost use Rattle.bd_io_lines.specs.Serving.{RepliesInTurn};
ghost use Rattle.bd_cli_service.specs.Reply.{LineReply};
ghost use Rattle.bd_cli_service.specs.Talk.{OpensInTalk, RepliesInText, PrintsInTurn, Talks, reply_lines};

/// After a line with `find`, a cursor returns its answer in batches of the sizes in the lines, and each token resumes with exactly
/// the rest. After a line with `resume` it returns the rest after the token.
pub fn talks_keep_to_the_answer()
    ensures answer { (bytes : List ℕ) (ds : List Doc) (q : Query)
        (hint : Option (List ℕ)) (id : ℕ) (lines : List (List ℕ)) (rs : List LineReply) →
        OpensInTalk bytes ds (find_call q hint) id lines rs →
        PrintsInTurn bytes ds q id (answer q.selection) lines rs }
    ensures rest { (bytes : List ℕ) (ds : List Doc) (q : Query) (hint : Option (List ℕ))
        (t : PositionedToken) (id : ℕ) (lines : List (List ℕ)) (rs : List LineReply) →
        OpensInTalk bytes ds (resume_call q hint t) id lines rs →
        PrintsInTurn bytes ds q id (rest q.selection t.position) lines rs }
{}

/// The text written in reply to lines is a talk, one line per reply.
pub fn texts_are_talks()
    ensures { (bytes : List ℕ) (ds : List Doc) (s : State) (lines : List (List ℕ))
        (text : List ℕ) (t : State) → RepliesInTurn (RepliesInText bytes ds) s lines text t →
        (rs : List LineReply) × Talks bytes ds s lines rs t × (text ≡ reply_lines rs) }
{}

/// Each line has a reply, in each state. So what was replied to some lines is a prefix of what is replied to all of them: replies
/// that were cut short are a prefix of a whole text.
pub fn replies_go_on()
    ensures { (bytes : List ℕ)
        (ds : List Doc) (s : State) (lines later : List (List ℕ)) (text : List ℕ) (t : State) →
        RepliesInTurn (RepliesInText bytes ds) s lines text t → (rest : List ℕ) × (end : State)
        × RepliesInTurn (RepliesInText bytes ds) s (lines ++ later) (text ++ rest) end }
{}
