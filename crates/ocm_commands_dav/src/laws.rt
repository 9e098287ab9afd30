ghost use Rattle.ocm_commands_dav.specs.Laws.{OneAnswer, OneTask};

/// Words ask for one task at most, and what that answers is fixed by its body and its exchanges, but for want of memory: so
/// each status comes exactly where its exchanges are those of that status.
pub fn words_have_one_answer()
    ensures task { OneTask }
    ensures answer { OneAnswer }
{}
