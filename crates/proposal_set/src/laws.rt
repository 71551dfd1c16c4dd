// Laws of the definitions in `specs/`, each the contract of a function that does nothing.
ghost use Rattle.std.specs.Prelude.{◌≡◌, [], ◌∷◌, codes};
ghost use Rattle.proposal_set.specs.Carried.{ProposalsLead};
ghost use Rattle.proposal_set.specs.Text.{reassignment_text};
ghost use Rattle.proposal_set.specs.Examples.{one_part, one_proposal};

/// What the texts of one proposal and of none are, byte for byte.
pub fn texts_on_literals()
    ensures one { reassignment_text (one_part ∷ []) (one_proposal ∷ [])
        ≡ codes
        "{\"partitions\":[{\"partition\":0,\"replicas\":[2,1],\"topic\":\"t\"}],\"version\":1}" }
    ensures none { reassignment_text (one_part ∷ []) []
        ≡ codes "{\"partitions\":[],\"version\":1}" }
{}

/// The proposals between two assignments, carried out one after another on the first, give the
/// second.
pub fn proposals_lead_from_before_to_after()
    ensures { ProposalsLead }
{}
