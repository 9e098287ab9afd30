use ocm_turn::Turnstile;

/// An object that many workers call.
pub type Node<T> = Turnstile<T>;
