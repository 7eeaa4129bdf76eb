use crate::script::Script;

// Whatever crosses threads has to be shown so where the type stands.
fn is_shared<T: Send + Sync>(_value: &T) {}

pub(crate) fn is_script_shared(script: &Script) {
    is_shared(script);
}
