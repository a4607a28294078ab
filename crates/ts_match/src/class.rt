// Queries as a class of an index.
ghost use Rattle.gin_opclass.specs.Class.{meaning, JudgeIsSound};
ghost use Rattle.ts_match.specs.Meaning.{Holds};
ghost use Rattle.ts_match.specs.Judging.{judged};
ghost use Rattle.ts_match.specs.Class.{asked_of, reads_all};

use crate::judging::judge;
use crate::work::MatchWork;
use gin_opclass::{Bytewise, Judge, Meaning, OpClass};
use ts_base::Tri;
use ts_query::TsQuery;

impl Meaning<TsQuery> for MatchWork {
    ghost use Rattle.ts_match.specs.Meaning.{Holds};
    ghost use Rattle.ts_match.specs.Judging.{judged as judged_by};
    ghost use Rattle.ts_match.specs.Class.{asked_of, reads_all};

    ghost asked = { asked_of };

    ghost all = { reads_all };

    ghost satisfies = { Holds };

    ghost judged = { judged_by };
}

/// The judge of text queries.
#[derive(Clone, Copy, Debug, Default)]
pub struct TextJudge;

impl Judge<TsQuery, MatchWork> for TextJudge {
    ghost use Rattle.std.specs.Prelude.{◌≡◌};
    ghost use Rattle.ts_match.specs.Plan.{plan_of};
    ghost use Rattle.ts_match.specs.Laws.Soundness.{is_sound};

    ghost serves = { λ work query. work ≡ plan_of query };

    fn judge(&self, query: &TsQuery, work: &mut MatchWork, values: &[Tri]) -> Tri {
        judge(query, work, values)
    }

    ghost sound = { is_sound };
}

/// The class of text queries: keys by their bytes, judged by `judge`. There is one such value, since neither part
/// has a field.
pub fn text_class() -> OpClass<TsQuery, MatchWork, Bytewise, TextJudge>
    ensures { JudgeIsSound (meaning asked_of reads_all Holds judged) }
{
    OpClass::new(Bytewise, TextJudge)
}
