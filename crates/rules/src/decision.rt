// A decision and its counts.
ghost use Rattle.std.specs.Prelude.{◌≡◌, not, eqb};
ghost use Rattle.rules.specs.Numbers.{action_no, reason_no};

#[derive(Clone, Copy, Debug, PartialEq, Eq)]
pub enum KernelAction {
    // The requested model was chosen.
    ExecuteRequested = 1,
    // Another one was.
    Substitute = 2,
    // None was.
    Reject = 3,
}

#[derive(Clone, Copy, Debug, PartialEq, Eq)]
pub enum KernelReason {
    RequestedModelMaximizesUtility = 1,
    AlternativeMaximizesUtility = 2,
    RiskHardLimit = 100,
    ConfidenceHardLimit = 101,
    NoEnabledModel = 102,
    QualityConstraint = 103,
    LatencyConstraint = 104,
    CapabilityConstraint = 105,
    ProviderConstraint = 106,
    RegionConstraint = 107,
    BudgetConstraint = 108,
    NonPositiveUtility = 109,
    RiskCeilingConstraint = 110,
}

#[derive(Clone, Copy)]
pub struct KernelDecision {
    pub request_sequence: u64,
    pub action: KernelAction,
    pub reason: KernelReason,
    // 0 for a rejection.
    pub selected_model_id: u32,
    // The place in the bank; 65,535 for a rejection.
    pub selected_model_index: u16,
    pub estimated_cost_microunits: u64,
    pub expected_utility_microunits: i64,
    // The second of the ranking; 0 and 0 where there is none.
    pub counterfactual_model_id: u32,
    pub counterfactual_utility_microunits: i64,
    pub evaluated_models: u16,
    pub eligible_models: u16,
    pub policy_epoch: u64,
    pub catalog_epoch: u64,
}

// How many records each reason turned away, in the order in which document 01 prints the counts.
#[derive(Clone, Copy)]
pub struct RejectionHistogram {
    pub disabled: u16,
    pub quality: u16,
    pub risk_ceiling: u16,
    pub latency: u16,
    pub capability: u16,
    // Gates 5 and 6 together.
    pub provider: u16,
    pub region: u16,
    pub budget: u16,
    pub utility: u16,
}

#[derive(Clone, Copy)]
pub struct DecisionTrace {
    pub rejections: RejectionHistogram,
    pub evaluated_models: u16,
    pub eligible_models: u16,
}

impl KernelAction {
    // Document 01's number.
    pub fn number(self) -> u8
        ensures { result ≡ action_no self }
    {
        self as u8
    }
}

impl KernelReason {
    // Document 01's number.
    pub fn number(self) -> u16
        ensures { result ≡ reason_no self }
    {
        self as u16
    }
}

// The four questions of a decision, by its action.
impl KernelDecision {
    // A model was chosen and may be executed.
    pub fn is_executable(self) -> bool
        ensures { result ≡ not (eqb (action_no self.action) 3) }
    {
        self.action != KernelAction::Reject
    }

    // The requested model was chosen.
    pub fn is_requested_execution(self) -> bool
        ensures { result ≡ eqb (action_no self.action) 1 }
    {
        self.action == KernelAction::ExecuteRequested
    }

    // Another model was.
    pub fn is_substitution(self) -> bool
        ensures { result ≡ eqb (action_no self.action) 2 }
    {
        self.action == KernelAction::Substitute
    }

    // None was.
    pub fn is_rejected(self) -> bool
        ensures { result ≡ eqb (action_no self.action) 3 }
    {
        self.action == KernelAction::Reject
    }
}
