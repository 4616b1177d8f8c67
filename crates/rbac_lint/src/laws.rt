//! Laws of findings: what follows from the definitions alone. The functions do nothing; their
//! contracts are the laws.

ghost use Rattle.std.specs.Prelude.{◌≡◌, ◌↔◌, List, None, false};
ghost use Rattle.rbac_lint.specs.declared.finding.Finding.{Finding as FindingView};
ghost use Rattle.rbac_lint.specs.Findings.{AreFindings};
ghost use Rattle.rbac_lint.specs.Wanted.{WantedView, AreWanted};
ghost use Rattle.rbac_manifest.specs.declared.replacement.Replaced.{Replaced};
ghost use Rattle.rbac_model.specs.Policies.{Held};

/// Objects have one list of findings: any two such lists are equal (own).
pub fn findings_are_one_list()
    ensures { (held : Held) (replaced : List Replaced) (found others : List FindingView)
        → AreFindings held replaced found → AreFindings held replaced others → found ≡ others }
{}

/// Objects have one list of the findings that are asked for. It has all findings if no codes are
/// listed and Kubernetes' own objects aren't left out (own).
pub fn wanted_findings_are_one_list()
    ensures one { (wanted : WantedView) (held : Held) (replaced : List Replaced)
        (found others : List FindingView)
        → AreWanted wanted held replaced found → AreWanted wanted held replaced others
        → found ≡ others }
    ensures all { (held : Held) (replaced : List Replaced) (found : List FindingView)
        → AreWanted (record { only = None; skip_system = false }) held replaced found
        ↔ AreFindings held replaced found }
{}
