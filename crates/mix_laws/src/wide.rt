//! What a formed session keeps of its links.
ghost use Rattle.mix_laws.specs.Wide.{LinksLeadWide};

/// In a formed session each link leads to a route with no fewer channels, and each route has one or two.
#[tactic(auto, using(crate::proofs::WideLaws::links_lead_wide))]
pub fn links_lead_wide()
    ensures { LinksLeadWide }
{}
