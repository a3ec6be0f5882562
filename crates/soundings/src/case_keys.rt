// The keys of the worked cases, all of kernel 1.
use crate::case::CaseKey;
use keys::KeyStage;
use kinds::KindName;

pub(crate) const HALL_NO_STAGE: CaseKey = CaseKey {
    kind: KindName::Hall,
    kernel: 1,
    stages: &[],
};

pub(crate) const RADIO_NO_STAGE: CaseKey = CaseKey {
    kind: KindName::Radio,
    kernel: 1,
    stages: &[],
};

pub(crate) const HALL_ONE_STAGE: CaseKey = CaseKey {
    kind: KindName::Hall,
    kernel: 1,
    stages: &[KeyStage { delay: 1, code: 0 }],
};

pub(crate) const HALL_TWO_STAGES: CaseKey = CaseKey {
    kind: KindName::Hall,
    kernel: 1,
    stages: &[
        KeyStage { delay: 1, code: 0 },
        KeyStage { delay: 2, code: 0 },
    ],
};

// The weight -1 at the first stage.
pub(crate) const HALL_MINUS_STAGES: CaseKey = CaseKey {
    kind: KindName::Hall,
    kernel: 1,
    stages: &[
        KeyStage { delay: 1, code: 1 },
        KeyStage { delay: 2, code: 0 },
    ],
};

// The weight i at the first stage.
pub(crate) const RADIO_I_STAGES: CaseKey = CaseKey {
    kind: KindName::Radio,
    kernel: 1,
    stages: &[
        KeyStage { delay: 1, code: 1 },
        KeyStage { delay: 2, code: 0 },
    ],
};
