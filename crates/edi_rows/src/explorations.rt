//! Programs whose choices are all followed: how many states, which endings, and their records run again.

#[cfg(test)]
mod explored;
#[cfg(test)]
mod outputs;
#[cfg(test)]
mod shown;
#[cfg(test)]
mod texts;
