use crate::kernel::Kernel;
use crate::stage::Stage;

// Seven stages over a kernel; the stages that a key does not use rest.
pub type Cascade<K> = Stage<Stage<Stage<Stage<Stage<Stage<Stage<Kernel<K>>>>>>>>;
