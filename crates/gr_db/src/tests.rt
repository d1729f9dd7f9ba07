// A journal that grows, and values as they are kept.
mod journal;
mod keeping;
