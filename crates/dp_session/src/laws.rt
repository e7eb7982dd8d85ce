//! The laws of whole runs of queries. Each is the contract of a function that does nothing.
ghost use Rattle.dp_session.specs.Privacy.{SameReplyLaw, HistoryLaw, NodeValuesLaw, TextValuesLaw};
ghost use Rattle.dp_session.specs.Privacy.{PrivacyLaw, RecordsPrivacyLaw};
ghost use Rattle.dp_session.specs.RunWays.{RunWaysLaw};
ghost use Rattle.dp_session.specs.SinglePrivacy.{PostPrivacyLaw, GroupPrivacyLaw, PlanRefusalLaw};
ghost use Rattle.dp_session.specs.PrivacyEdges.{EdgeLaw};
ghost use Rattle.dp_session.specs.Transcripts.{TranscriptLaw, SessionShapeLaw};

/// The number of draw lists of a run that give a list of replies is the product of the ways of its accepted asks. It
/// is 0 where there are not as many replies as queries, where the reply to a refused query is not its refusal or that
/// to an open not that a child was opened, and where an accepted ask has such a reply. The test of equality of replies
/// tells equal ones from different ones.
pub fn ways_law()
    ensures same { SameReplyLaw }
    ensures product { RunWaysLaw }
{}

/// The accepted queries of any lines were admitted one after the other, and no child has an odometer. On records or
/// data texts within an accepted pipeline's distance the values of each node are within the node's.
pub fn nodes_law()
    ensures history { HistoryLaw }
    ensures values { NodeValuesLaw }
    ensures text_values { TextValuesLaw }
{}

/// For every accepted pipeline, all data texts within its distance, all lists of queries and all lists of replies, the
/// numbers of draw lists that give the replies keep the ratio at the units that the queries spend. So do those of all
/// records of the pipeline's columns within its distance.
pub fn privacy_law()
    ensures texts { PrivacyLaw }
    ensures records { RecordsPrivacyLaw }
{}

/// Of every accepted pipeline, each accepted release of a plan, with its answer changed after or on the groups of a
/// column, is private at its cost: on all data texts within the pipeline's distance and for all answers the numbers of
/// draw lists that give an answer keep the ratio. A plan's release alone is refused for its cost or not at all.
pub fn single_law()
    ensures post { PostPrivacyLaw }
    ensures group { GroupPrivacyLaw }
    ensures refusal { PlanRefusalLaw }
{}

/// At one pipeline and one query the ratio is met with nothing to spare.
pub fn edge_law()
    ensures { EdgeLaw }
{}

/// On all root values and draws the lines that a session writes are those of its replies: nothing else is told of the
/// records. The bounds of its draws are those of the run.
pub fn transcript_law()
    ensures lines { TranscriptLaw }
    ensures shape { SessionShapeLaw }
{}

#[cfg(test)]
mod tests {
    use super::*;

    /// A call gives its law to the function that makes it.
    fn given()
        ensures same { SameReplyLaw }
        ensures product { RunWaysLaw }
        ensures history { HistoryLaw }
        ensures values { NodeValuesLaw }
        ensures text_values { TextValuesLaw }
        ensures texts { PrivacyLaw }
        ensures records { RecordsPrivacyLaw }
        ensures post { PostPrivacyLaw }
        ensures group { GroupPrivacyLaw }
        ensures refusal { PlanRefusalLaw }
        ensures edge { EdgeLaw }
        ensures lines { TranscriptLaw }
        ensures shape { SessionShapeLaw }
    {
        ways_law();
        nodes_law();
        privacy_law();
        single_law();
        edge_law();
        transcript_law();
    }

    #[test]
    fn a_call_gives_its_law(_rt: HostRuntime) {
        given();
    }
}
